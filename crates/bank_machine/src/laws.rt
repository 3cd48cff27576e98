ghost use Rattle.bank_machine.specs.Laws.{MovesAreRight, MovesAreWhole, AtItsEnd, CallsCost};
ghost use Rattle.bank_machine.specs.Laws.{NoMatchGivesNothing, NoneGoesOnGivesNothing, RunGives};
ghost use Rattle.bank_machine.specs.Laws.{RunIsWhole};
ghost use Rattle.bank_machine.specs.SoundLaws.{StartIsSound, MovesKeepSound, SoundIsReady};

/// What the next state gives at some cost, the state gives at that cost and the cost of the move.
pub fn moves_are_right()
    ensures { MovesAreRight }
{}

/// What a state gives, the next state gives at what is left of the cost after the move, if left
/// sides don't overlap and groups are whole.
pub fn moves_are_whole()
    ensures { MovesAreWhole }
{}

/// A state at the end of its last frame gives the value of its slot for nothing, and nothing else.
pub fn at_its_end()
    ensures { AtItsEnd }
{}

/// If a call is next, what the state gives costs at least one use of a rule.
pub fn calls_cost()
    ensures { CallsCost }
{}

/// If no left side matches the next call, the state gives nothing.
pub fn no_match_gives_nothing()
    ensures { NoMatchGivesNothing }
{}

/// If no rule goes on with the answer of a test, the state gives nothing.
pub fn none_goes_on_gives_nothing()
    ensures { NoneGoesOnGivesNothing }
{}

/// If the code of a term runs to its end, the term gives the value of the slot at the cost of the
/// run.
pub fn run_gives()
    ensures { RunGives }
{}

/// What a term gives costs what a run from its code has cost so far, and what the state that it has
/// come to gives costs, if left sides don't overlap and groups are whole.
pub fn run_is_whole()
    ensures { RunIsWhole }
{}

/// The code of a sorted term is a sound state: each call that comes is sorted, and has values as
/// its arguments.
pub fn start_is_sound()
    ensures { StartIsSound }
{}

/// Moves keep that a state is sound.
pub fn moves_keep_sound()
    ensures { MovesKeepSound }
{}

/// In a sound state the next call is ready.
pub fn sound_is_ready()
    ensures { SoundIsReady }
{}
