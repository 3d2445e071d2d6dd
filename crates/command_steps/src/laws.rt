// The laws of steps and of their orders, each as the contract of a call that does nothing.
ghost use Rattle.command_steps.specs.Laws.{PassOrRefuse, OneRefusal, NoneIsFirst, OneIsFirst};

/// A step that passes doesn't refuse, and one that refuses does so in one way.
pub fn steps_tell()
    ensures exclusive { PassOrRefuse }
    ensures unique { OneRefusal }
{}

/// Where all steps pass none is the first to refuse; otherwise at most one is, with one refusal and one
/// story that it leaves.
pub fn orders_tell()
    ensures none { NoneIsFirst }
    ensures one { OneIsFirst }
{}
