//! That a host runs dry: a law of the definitions that the contracts of this crate cite, the contract of a function that does nothing.

ghost use Rattle.std.specs.Prelude.{◌≡◌, ◌<◌, ◌≤◌, ◌+◌, ℕ, Some, None};
ghost use Rattle.clock.specs.declared.moment.Moment.{Moment};
ghost use Rattle.host.specs.Dry.{most_frames, GivesOut};
ghost use Rattle.host.specs.Emission.{after_emission, emission_len};
ghost use Rattle.host.specs.HostView.{HostView};
ghost use Rattle.host.specs.Sound.{IsSoundHost};

/// A host runs dry: at any moment of the clock, its last one too, so many frames go out of it one after the other, where nothing else happens to it, and no more: each leaves fewer, and once as many have gone
/// out none does. They are as many at most as control replies wait, as requests may still be sent, 64 less those of the second before and of the moment itself, as datagrams that can go out have fragments
/// left, and as connections have numbers left that may go out, and what they owe beside (`tcp_state::telling::what_goes_out_runs_dry`). So who asks for frames until none goes out comes to an end. Each host is
/// found sound, as every host is by `Host::sound`.
pub fn a_host_runs_dry()
    ensures fewer { (h : HostView) (now : Moment) (len : ℕ) → IsSoundHost h → emission_len h now ≡ Some len → most_frames (after_emission h now) now < most_frames h now }
    ensures most { (now : Moment) (frames : ℕ) (first last : HostView) → GivesOut now frames first last → frames + most_frames last now ≤ most_frames first now }
    ensures none { (now : Moment) (frames : ℕ) (first last : HostView) → GivesOut now frames first last → IsSoundHost last → most_frames first now ≤ frames → emission_len last now ≡ None }
{}
