//! What the programs print with: the word for how a run ended, here, and printing part by part, in
//! the module `printing`. It stands on `abt_engine` (the endings), `support_buffer` (lent buffers)
//! and `support_cli` (outputs). Start at `word_for`.
#![tactic(auto)]

ghost use Rattle.std.specs.Prelude.{◌≡◌, ◌≤◌, length};
ghost use Rattle.model_network.specs.Run.{ending_word};
ghost use Rattle.abt_engine.specs.Answers.{ending_of};
ghost use Rattle.support_buffer.specs.Puts.{Room, Adds};

pub mod printing;

use abt_engine::Ending;
use support_buffer::cursor::Cursor;

/// Returns the word for how a run ended, at most six letters; it is empty for `Broken`, where the
/// run was rejected. Equals `ending_word` of model_network/specs/Run.antt.
#[tactic(auto, unfolding(model_network::specs::Run::ending_word, abt_engine::specs::Answers::ending_of))]
pub fn word_for(e: Ending) -> &'static [u8]
    ensures word { result.now ≡ ending_word (ending_of e) }
    ensures count { length result.now ≤ 6 }
{
    match e {
        Ending::Unsolvable => b"none",
        Ending::Plan => b"plan",
        Ending::Jammed => b"jammed",
        Ending::Open => b"open",
        Ending::Broken => b"",
    }
}

/// Puts the word for how a run ended behind what the buffer holds. The buffer has room for six
/// bytes more.
pub fn append_ending(out: &mut Cursor<'_>, e: Ending)
    requires { Room out.old 6 }
    ensures text { Adds out.old (ending_word (ending_of e)) out.new }
    ensures short { length (ending_word (ending_of e)) ≤ 6 }
{
    out.put_all(word_for(e));
}
