//! Laws over the definitions alone: functions with nothing to do, whose contracts are the laws.

ghost use Rattle.commands.specs.Wanted.{MemoryIsWantedForOctets};

/// Of what a host does in a script, want of memory is told only where it reads octets or emits a frame, in whatever world.
pub fn memory_is_wanted_for_octets()
    ensures { MemoryIsWantedForOctets }
{}
