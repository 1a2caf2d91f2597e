//! The law of one host, whoever its peers are: laws of the definitions, each the contract of a function that does nothing.

ghost use Rattle.std.specs.Prelude.{◌≡◌, ℕ, ◌+◌, true, List, length, slice_get, Some};
ghost use Rattle.std.specs.List.{AllByRecursion};
ghost use Rattle.sockets.specs.declared.entry.SocketId.{SocketId};
ghost use Rattle.stream_law.specs.Begins.{Begins};
ghost use Rattle.host.specs.ConfigView.{ConfigView};
ghost use Rattle.host.specs.HostView.{HostView};
ghost use Rattle.host.specs.Runs.{Event, HasRunOnOctets, IsAsked, IsOfOctets, Runs};
ghost use Rattle.host.specs.Sound.{IsSoundHost};
ghost use Rattle.host_law.specs.Callers.{ended_at, read_on};
ghost use Rattle.host_law.specs.Coming.{Brings, BringsEnd};
ghost use Rattle.host_law.specs.History.{Once, Step, history};
ghost use Rattle.host_law.specs.HostLaw.{HostLaw, ReadsWhatCame};

/// The law of one host holds over every run, whatever calls are made of it and whatever frames come, which are of octets. So it holds of each host there is: `Host::sound` says that it is sound, and that such a run led to it.
pub fn every_run_of_a_host()
    ensures run { (c : ConfigView) (events : List Event) (h : HostView) (run : Runs c events h) → IsSoundHost h → AllByRecursion (IsAsked c) events → AllByRecursion IsOfOctets events → HostLaw c h (history run) }
    ensures host { (h : HostView) → IsSoundHost h → (was : HasRunOnOctets h) → HostLaw was.run.config h (history was.run.runs) }
{}

/// Where all that frames bring at each position of a connection is the octet of one text, what is read begins that text; and where the FIN is brought behind it alone, and the end was told, all of it was read.
pub fn what_agrees_is_read()
    ensures begins { (c : ConfigView) (id : SocketId) (steps : List Step) (text : List ℕ) → ReadsWhatCame c id steps
        → ((k octet : ℕ) → Once (Brings c id (k + 1) octet) steps → slice_get text k ≡ Some octet) → Begins (read_on id steps) text }
    ensures whole { (c : ConfigView) (id : SocketId) (steps : List Step) (text : List ℕ) → ReadsWhatCame c id steps
        → ((k octet : ℕ) → Once (Brings c id (k + 1) octet) steps → slice_get text k ≡ Some octet)
        → ((position : ℕ) → Once (BringsEnd c id position) steps → position ≡ length text + 1)
        → Once (λ step earlier. ended_at id step.before step.event ≡ true) steps → text ≡ read_on id steps }
{}
