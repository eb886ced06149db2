//! What holds of every handle.
//!
//! A law is a function that does nothing. Its contract is what is proved.

ghost use denote.Param.Send.{IsSend};
ghost use Rattle.purvilgo_c.specs.contracts.handle.Handle.{the_row as handle_row};

/// A handle is `Send`: it may go to another thread, with all that it holds.
pub fn handles_are_send()
    ensures { IsSend handle_row }
{}
