//! Taking the items of a text, and passing over what is white after the limit.

ghost use Rattle.std.specs.Prelude.{IfErr, IfOk};
ghost use Rattle.chess_items.specs.steps.Passing.{PassBreaks, Passes};

use crate::at_hand::Fault;
use crate::blanks::skip_white;
use crate::taker::Taker;
use crate::taking::{Stop, Stopped, run};
use crate::text::Text;

/// Takes items as `run` does; whitespace, marks and hidden lines after the limit are passed over, to the last of them, where nothing else has
/// come. `None` where nothing else comes at all.
pub fn pass<X: Text, T: Taker>(
    text: &mut X,
    taker: &mut T,
    limit: usize,
) -> Result<Option<Stopped>, Fault>
    requires { X.sound text.old }
    ensures sound { IfOk result (λ _. X.sound text.new) }
    ensures passes { Passes X.comes X.at_hand X.all X.sound X.reads T.takes limit text.old text.new taker.old taker.new result }
    ensures broken { IfErr result (λ fault. PassBreaks X.comes X.at_hand X.all X.sound X.reads T.takes limit X.breaks text.old text.new taker.old fault) }
{
    let stopped = match run(text, taker, limit) {
        Err(fault) => return Err(fault),
        Ok(stopped) => stopped,
    };
    if !stopped.white {
        return Ok(Some(stopped));
    }
    match stopped.why {
        Stop::End => Ok(None),
        Stop::TooLarge => match skip_white(text, stopped.place) {
            Err(fault) => Err(fault),
            Ok(true) => Ok(None),
            Ok(false) => Ok(Some(stopped)),
        },
        _ => Ok(Some(stopped)),
    }
}
