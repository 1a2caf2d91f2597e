//! What this stack puts into a header.

ghost use Rattle.std.specs.Prelude.{◌≡◌, ℕ, ◌+◌, ◌-◌, ◌*◌, ◌<◌, ◌≤◌, ◌^◌, true, false, [], ◌++◌, length, drop, slice_range, if◌then◌else◌};
ghost use Rattle.inet_sum.specs.Sum.{word_sum, ones_complement, sum_of};
ghost use Rattle.tcp_segment.specs.declared.TheConstants.{MOST_BLOCKS};
ghost use Rattle.tcp_segment.specs.Options.{joined};
ghost use Rattle.tcp_segment.specs.Segment.{FieldsFit, control_bits, fixed_fields};
ghost use Rattle.tcp_segment.specs.Sent.{CanBeSent, sent_options, sent_segment, one_more, sent_offset, sent_with, sent_octets};

use crate::blocks::{BLOCK_LEN, Blocks};
use crate::flags::{Flags, octet_of};
use crate::options::{MAXIMUM_SEGMENT_SIZE, NO_OPERATION, SACK, SACK_PERMITTED, WINDOW_SCALE};
use crate::seq::Seq;
use crate::sum::sum_of_words;
use crate::{FIXED_LEN, MSS, SHIFT};
use ipv4::Addr;

/// The header of a segment that is sent, but for what the stack determines: the options, the
/// checksum, and an urgent pointer of 0 (RFC 9293 section 3.1).
#[derive(Clone, Copy, Debug, PartialEq, Eq)]
pub struct Head {
    /// The sender's port.
    pub source: u16,
    /// The receiver's port.
    pub destination: u16,
    /// The number of the first octet, or of the SYN.
    pub number: Seq,
    /// The number that the sender expects next, where ACK is set.
    pub acknowledgement: Seq,
    /// The control bits.
    pub flags: Flags,
    /// The window field: how many octets the sender has room for; without SYN, where windows are scaled, how many units
    /// of its own (RFC 7323 section 2.3).
    pub window: u16,
    /// Whether a segment with SYN offers to scale windows (RFC 7323 section 2.2). It isn't read where SYN isn't set.
    pub scales: bool,
    /// Whether a segment with SYN says that its sender takes selective acknowledgements (RFC 2018 section 2). It isn't read
    /// where SYN isn't set.
    pub sacks: bool,
    /// What a segment without SYN reports to be held ahead of a gap (RFC 2018 section 3). They aren't read where SYN is set.
    pub blocks: Blocks,
}

/// The length of the MSS option, in octets.
const MSS_OPTION_LEN: usize = 4;

/// The length of the window scale option, in octets.
const SCALE_OPTION_LEN: u8 = 3;

/// The length of the option that permits selective acknowledgements, in octets.
const SACKS_LEN: u8 = 2;

/// The length of the option that reports blocks, without these, in octets.
const SACK_OPTION_LEN: u8 = 2;

/// The length of a header with the MSS option, in octets.
const SIZED_LEN: usize = FIXED_LEN + MSS_OPTION_LEN;

/// The length of a word, in octets.
const WORD_LEN: usize = 4;

/// The window scale option, behind the octet of no operation that fills its word.
const SCALE_WORD: [u8; WORD_LEN] = [NO_OPERATION, WINDOW_SCALE, SCALE_OPTION_LEN, SHIFT];

/// The permission, behind two of these.
const SACKS_WORD: [u8; WORD_LEN] = [NO_OPERATION, NO_OPERATION, SACK_PERMITTED, SACKS_LEN];

/// The length of a header before the blocks that it reports, in octets.
const REPORTING_LEN: usize = FIXED_LEN + WORD_LEN;

impl Head {
    /// The length of the header, in octets: with SYN it has the MSS option, and those of scaling and of selective acknowledgement where
    /// these are offered; without SYN it has the blocks that are reported.
    pub fn len(&self) -> usize
        ensures value { result ≡ 4 * sent_offset self.now }
        ensures most { result ≤ 56 }
    {
        if self.has_mss_option() {
            self.scaled_len() + if self.sacks { WORD_LEN } else { 0 }
        } else if self.blocks.is_empty() {
            FIXED_LEN
        } else {
            REPORTING_LEN + BLOCK_LEN * self.blocks.len()
        }
    }

    /// The length of a header with SYN up to the permission, in octets.
    fn scaled_len(&self) -> usize
        ensures { result ≡ 4 * one_more self.now.scales 6 }
    {
        SIZED_LEN + if self.scales { WORD_LEN } else { 0 }
    }

    /// Writes the header before the payload, which stands at `out[self.len()..]` already and whose
    /// one's complement sum is `payload_sum`, and answers the length of the segment, in octets. The
    /// payload isn't read again. What stands behind it in `out` stays.
    #[inline(always)]
    pub fn emit(
        &self,
        src: Addr,
        dst: Addr,
        payload_len: usize,
        payload_sum: u16,
        out: &mut [u8],
    ) -> usize
        requires room { 4 * sent_offset self.now + payload_len ≤ length out.old }
        requires len { 4 * sent_offset self.now + payload_len < 2 ^ 16 }
        requires sum { payload_sum ≡ sum_of (slice_range out.old (4 * sent_offset self.now) (4 * sent_offset self.now + payload_len)) }
        ensures len { result ≡ 4 * sent_offset self.now + payload_len }
        ensures sendable { CanBeSent src dst self.now (slice_range out.old (4 * sent_offset self.now) result) }
        ensures octets { let payload = slice_range out.old (4 * sent_offset self.now) result in
            out.new ≡ sent_octets src dst self.now payload ++ drop result out.old }
    {
        if self.has_options() {
            let head = *self;
            head.emit_long(src, dst, payload_len, payload_sum, out)
        } else {
            self.put(src, dst, payload_len, payload_sum, out)
        }
    }

    /// The same of a header with options, which few have. It is apart from that of the others, so that the caller of these lays out no header.
    #[cold]
    #[inline(never)]
    fn emit_long(
        &self,
        src: Addr,
        dst: Addr,
        payload_len: usize,
        payload_sum: u16,
        out: &mut [u8],
    ) -> usize
        requires room { 4 * sent_offset self.now + payload_len ≤ length out.old }
        requires len { 4 * sent_offset self.now + payload_len < 2 ^ 16 }
        requires sum { payload_sum ≡ sum_of (slice_range out.old (4 * sent_offset self.now) (4 * sent_offset self.now + payload_len)) }
        ensures len { result ≡ 4 * sent_offset self.now + payload_len }
        ensures sendable { CanBeSent src dst self.now (slice_range out.old (4 * sent_offset self.now) result) }
        ensures octets { let payload = slice_range out.old (4 * sent_offset self.now) result in
            out.new ≡ sent_octets src dst self.now payload ++ drop result out.old }
    {
        self.put(src, dst, payload_len, payload_sum, out)
    }

    /// The same of any header.
    #[inline(always)]
    fn put(
        &self,
        src: Addr,
        dst: Addr,
        payload_len: usize,
        payload_sum: u16,
        out: &mut [u8],
    ) -> usize
        requires room { 4 * sent_offset self.now + payload_len ≤ length out.old }
        requires len { 4 * sent_offset self.now + payload_len < 2 ^ 16 }
        requires sum { payload_sum ≡ sum_of (slice_range out.old (4 * sent_offset self.now) (4 * sent_offset self.now + payload_len)) }
        ensures len { result ≡ 4 * sent_offset self.now + payload_len }
        ensures sendable { CanBeSent src dst self.now (slice_range out.old (4 * sent_offset self.now) result) }
        ensures octets { let payload = slice_range out.old (4 * sent_offset self.now) result in
            out.new ≡ sent_octets src dst self.now payload ++ drop result out.old }
    {
        self.blocks.numbers_fit();
        let len = self.len() + payload_len;
        let words = self.words() + u64::from(payload_sum);
        self.write(u16::MAX - sum_of_words(src, dst, len as u16, words), out);
        len
    }

    /// Whether there are options in the header.
    fn has_options(&self) -> bool {
        self.has_mss_option() || !self.blocks.is_empty()
    }

    /// Whether the header carries the MSS option.
    fn has_mss_option(&self) -> bool
        ensures { result ≡ self.now.flags.syn }
    {
        self.flags.syn
    }

    /// What the words of the header come to where the checksum is 0, in one's complement: a number of 32 bits counts as its two words.
    #[inline(always)]
    fn words(&self) -> u64
        ensures value { (more : ℕ) → ones_complement (result + more) ≡ ones_complement (word_sum (sent_with self.now [] 0) + more) }
        ensures bound { result < 2 ^ 62 }
    {
        let Seq(number) = self.number;
        let Seq(acknowledgement) = self.acknowledgement;
        let ports = u64::from(self.source) + u64::from(self.destination);
        let numbers = u64::from(number) + u64::from(acknowledgement);
        let control = u64::from(self.control()) + u64::from(self.window);
        ports + numbers + control + self.option_words()
    }

    /// What the words of the options come to.
    #[inline(always)]
    fn option_words(&self) -> u64
        ensures value { (more : ℕ) → ones_complement (result + more) ≡ ones_complement (word_sum (joined (sent_options self.now)) + more) }
        ensures bound { result < 2 ^ 40 }
    {
        if self.has_mss_option() {
            u64::from(self.syn_words())
        } else if self.blocks.is_empty() {
            0
        } else {
            u64::from(self.report_words()) + self.blocks.words()
        }
    }

    /// What the words of the options with SYN come to.
    #[cold]
    fn syn_words(&self) -> u16
        ensures { result ≡ 1976 + (if self.now.scales then 1032 else 0) + (if self.now.sacks then 1283 else 0) }
    {
        let sized = u16::from_be_bytes([MAXIMUM_SEGMENT_SIZE, MSS_OPTION_LEN as u8]) + MSS;
        let scaled = u16::from_be_bytes([NO_OPERATION, WINDOW_SCALE])
            + u16::from_be_bytes([SCALE_OPTION_LEN, SHIFT]);
        let permitted = u16::from_be_bytes([NO_OPERATION, NO_OPERATION])
            + u16::from_be_bytes([SACK_PERMITTED, SACKS_LEN]);
        sized + if self.scales { scaled } else { 0 } + if self.sacks { permitted } else { 0 }
    }

    /// What the words before the blocks that are reported come to.
    #[cold]
    fn report_words(&self) -> u16
        ensures value { result ≡ 1539 + 8 * length self.now.blocks }
        ensures few { length self.now.blocks ≤ MOST_BLOCKS }
    {
        u16::from_be_bytes([NO_OPERATION, NO_OPERATION])
            + u16::from_be_bytes([SACK, self.report_len()])
    }

    /// The length of the option that reports the blocks, in octets.
    fn report_len(&self) -> u8
        ensures value { result ≡ 2 + 8 * length self.now.blocks }
        ensures few { length self.now.blocks ≤ MOST_BLOCKS }
    {
        SACK_OPTION_LEN + (BLOCK_LEN * self.blocks.len()) as u8
    }

    /// The word of the data offset and the control bits.
    #[inline(always)]
    fn control(&self) -> u16
        ensures { result ≡ 4096 * sent_offset self.now + control_bits self.now.flags }
    {
        4096 * (self.len() / 4) as u16 + u16::from(octet_of(self.flags))
    }

    /// Writes the header with this checksum.
    #[inline(always)]
    fn write(&self, checksum: u16, out: &mut [u8])
        requires { 4 * sent_offset self.now ≤ length out.old }
        ensures octets { out.new ≡ sent_with self.now [] checksum ++ drop (4 * sent_offset self.now) out.old }
        ensures fit { FieldsFit (sent_segment self.now []) }
    {
        out[..FIXED_LEN].copy_from_slice(&self.fixed(checksum));
        if self.has_mss_option() {
            self.write_offers(&mut out[FIXED_LEN..]);
        } else if !self.blocks.is_empty() {
            self.write_report(&mut out[FIXED_LEN..]);
        }
    }

    /// Writes the options of a segment with SYN.
    #[cold]
    fn write_offers(&self, out: &mut [u8])
        requires syn { self.now.flags.syn ≡ true }
        requires room { 4 * sent_offset self.now ≤ FIXED_LEN + length out.old }
        ensures { out.new ≡ joined (sent_options self.now) ++ drop (4 * sent_offset self.now - FIXED_LEN) out.old }
    {
        let [high, low] = MSS.to_be_bytes();
        out[..WORD_LEN].copy_from_slice(&[MAXIMUM_SEGMENT_SIZE, MSS_OPTION_LEN as u8, high, low]);
        if self.scales {
            out[WORD_LEN..2 * WORD_LEN].copy_from_slice(&SCALE_WORD);
        }
        if self.sacks {
            let at = self.scaled_len() - FIXED_LEN;
            out[at..at + WORD_LEN].copy_from_slice(&SACKS_WORD);
        }
    }

    /// Writes the option that reports blocks.
    #[cold]
    fn write_report(&self, out: &mut [u8])
        requires syn { self.now.flags.syn ≡ false }
        requires some { 0 < length self.now.blocks }
        requires room { 4 * sent_offset self.now ≤ FIXED_LEN + length out.old }
        ensures { out.new ≡ joined (sent_options self.now) ++ drop (4 * sent_offset self.now - FIXED_LEN) out.old }
    {
        out[..WORD_LEN].copy_from_slice(&[NO_OPERATION, NO_OPERATION, SACK, self.report_len()]);
        self.blocks.write(&mut out[WORD_LEN..]);
    }

    /// The fields of the header before its options, with this checksum.
    #[inline(always)]
    fn fixed(&self, checksum: u16) -> [u8; FIXED_LEN]
        ensures octets { result ≡ fixed_fields (sent_segment self.now []) (sent_offset self.now) 0 checksum }
        ensures fit { FieldsFit (sent_segment self.now []) }
    {
        let Head {
            source,
            destination,
            number: Seq(number),
            acknowledgement: Seq(acknowledgement),
            window,
            ..
        } = *self;
        let [source_high, source_low] = source.to_be_bytes();
        let [destination_high, destination_low] = destination.to_be_bytes();
        let [n0, n1, n2, n3] = number.to_be_bytes();
        let [a0, a1, a2, a3] = acknowledgement.to_be_bytes();
        let [offset, flags] = self.control().to_be_bytes();
        let [checksum_high, checksum_low] = checksum.to_be_bytes();
        let [window_high, window_low] = window.to_be_bytes();
        [
            source_high,
            source_low,
            destination_high,
            destination_low,
            n0,
            n1,
            n2,
            n3,
            a0,
            a1,
            a2,
            a3,
            offset,
            flags,
            window_high,
            window_low,
            checksum_high,
            checksum_low,
            0,
            0,
        ]
    }
}
