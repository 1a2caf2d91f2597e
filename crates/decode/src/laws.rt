//! Laws of the definitions that the contracts of this crate cite: each is the contract of a function that does nothing.

ghost use Rattle.std.specs.Prelude.{◌≡◌, ◌++◌, List, ℕ, Option};
ghost use Rattle.decode.specs.declared.unreadable.Unreadable.{Unreadable};
ghost use Rattle.decode.specs.declared.unreadable.Unreadable.TheVariants.{Short, OtherType, IpHeader, IpSum, UpperHeader, UpperSum};
ghost use Rattle.decode.specs.Layers.{Decodes, IsShown, Shown, number_of};

/// What is shown of octets is determined by them, and so are the text that `decode` leaves and the cause that it answers.
pub fn one_answer()
    ensures shown { (octets : List ℕ) (first second : Shown) → IsShown octets first → IsShown octets second → first ≡ second }
    ensures decoded { (octets old first second : List ℕ) (one other : Option Unreadable)
        → Decodes octets one old first → Decodes octets other old second → (first ≡ second) × (one ≡ other) }
{}

/// Why something can't be read is told by the number that a host drops a frame for.
pub fn causes_have_their_numbers()
    ensures link { (number_of Short ≡ 1) × (number_of OtherType ≡ 3) }
    ensures datagram { (number_of IpHeader ≡ 4) × (number_of IpSum ≡ 5) }
    ensures upper { (number_of UpperHeader ≡ 7) × (number_of UpperSum ≡ 8) }
{}
