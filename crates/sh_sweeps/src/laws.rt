//! What the flow rules ask of has a place.
ghost use Rattle.sh_sweeps.specs.There.{RulesAskThere};

/// The flow rules of a script that is admitted ask only of its commands, the turns of its loops and
/// its functions. Each of these has its place in a certificate that has as many commands and
/// functions as the script, and heads at its loops.
pub fn places()
    ensures { RulesAskThere }
{}
