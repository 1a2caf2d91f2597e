//! What an interface keeps of itself.

ghost use Rattle.std.specs.Prelude.{◌≡◌, ◌<◌, ◌≤◌, length, All};
ghost use Rattle.std.specs.List.{AllByRecursion};
ghost use Rattle.arp.specs.Packet.{HasWidths};
ghost use Rattle.interface.specs.Sound.{IsSoundReply, IsSoundReset, IsSoundEcho, IsSoundError};

use crate::interface::Interface;
use crate::reply::{Reply, ResetHead, Waiting};
use crate::room::{Quoted, Room};
use arp::ArpPacket;
use ether::is_whole_mac;
use ipv4::Addr;

impl Interface {
    ghost use Rattle.interface.specs.Sound.{IsSound};

    /// What an interface keeps of itself, for the contracts above; it changes nothing.
    pub fn sound(&self)
        ensures { IsSound self.now }
    {
        is_whole_mac(self.mac);
        is_whole(self.addr);
        self.cache.sound();
        sound_replies(self.replies.as_slice(), self.addr);
    }
}

/// What each reply keeps of itself.
fn sound_replies(replies: &[Waiting], own: Addr)
    ensures { AllByRecursion (λ waiting. IsSoundReply own waiting.reply) replies.now }
{
    for waiting in replies {
        sound_reply(&waiting.reply, own);
    }
}

/// What a reply keeps of itself.
fn sound_reply(reply: &Reply, own: Addr)
    ensures { IsSoundReply own reply.now }
{
    match reply {
        Reply::Arp(packet) => has_widths(*packet),
        Reply::Reset { to, head } => sound_reset(own, *to, *head),
        Reply::Echo {
            to,
            identifier,
            number,
            data,
        } => sound_echo(*to, *identifier, *number, data),
        Reply::Error { to, quoted, .. } => sound_error(*to, quoted),
    }
}

/// The addresses of a packet have their widths.
fn has_widths(packet: ArpPacket)
    ensures { HasWidths packet }
{
    is_whole_mac(packet.sender_mac);
    is_whole(packet.sender_addr);
    is_whole_mac(packet.target_mac);
    is_whole(packet.target_addr);
}

/// A reset can be sent, and is one.
fn sound_reset(own: Addr, to: Addr, reset: ResetHead)
    ensures { IsSoundReset own to reset }
{
    is_whole(own);
    is_whole(to);
    let _ = reset.head().len();
}

/// An echo reply can be sent.
fn sound_echo(to: Addr, identifier: u16, number: u16, room: &Room)
    ensures { IsSoundEcho to identifier number room.now }
{
    is_whole(to);
    let _ = (identifier, number);
    are_octets(room.as_slice());
}

/// An error can be sent.
fn sound_error(to: Addr, quoted: &Quoted)
    ensures { IsSoundError to quoted.now }
{
    is_whole(to);
    are_octets(quoted.as_slice());
}

/// Octets are numbers below 256.
fn are_octets(octets: &[u8])
    ensures { All (λ octet. octet < 256) octets.now }
{
    let _ = octets;
}

/// An address has four octets.
fn is_whole(addr: Addr)
    ensures { length addr.0 ≡ 4 }
{
    let _ = addr;
}
