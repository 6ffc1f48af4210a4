// What goes back on the bus (01, "The bus").
ghost use Rattle.std.specs.Prelude.{◌≡◌, length};
ghost use Rattle.modbus.specs.Reply.{Replied};
ghost use Rattle.answers.specs.Answer.{answer_as};
ghost use Rattle.converter.specs.Call.{reply_with};
ghost use Rattle.converter.specs.Reached.{Delivers};

use refusal::{Refusal, number_of};

// The number, 0 where the frame was obeyed, and the length replied, 0 for none.
// Kept: C's record, and no Result: beside a number there is a length too, that of the exception.
#[repr(C)]
#[derive(Clone, Copy)]
pub struct Answered {
    pub number: u8,
    pub length: usize,
}

// The length of the reply, 0 for none.
fn reply_with(frame: &[u8], reply: &mut [u8], answer: Result<Option<f32>, Refusal>) -> usize
    ensures { Replied (reply_with frame.now (length reply.old) (answer_as answer)) reply.old reply.new result }
{
    match answer {
        Ok(Some(x)) => modbus::reply::value(frame, reply, x),
        Ok(None) => modbus::reply::acknowledgement(frame, reply),
        Err(refusal) => modbus::reply::exception(frame, reply, refusal.number()),
    }
}

// An answer by its number and its reply.
pub fn deliver(frame: &[u8], reply: &mut [u8], answer: Result<Option<f32>, Refusal>) -> Answered
    ensures { Delivers (answer_as answer) frame.now reply.old reply.new result }
{
    Answered {
        number: number_of(&answer),
        length: reply_with(frame, reply, answer),
    }
}
