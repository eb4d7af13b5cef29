//! Rows of texts: what is read from them, named, resolved, typed and laid out; and rows of the
//! words of commands.
//!
//! - `tokens TEXT` gives the sorts of the tokens and their places.
//! - `terminals TEXT` gives their words, and what these are to the grammar.
//! - `tree TEXT` gives how many declarations there are, or the fault.
//! - `cuts TEXT` gives the same of each beginning of the text that has neither a fault of the lexer
//!   nor one of syntax, and then of the text.
//! - `print TEXT` gives the canonical text, and after it that of the canonical text, where it is
//!   another.
//! - `twice TEXT` and `unknown TEXT` give the first name of a description that is declared twice,
//!   or that nothing declares.
//! - `limit TEXT` gives the first limit that a description passes.
//! - `literal TEXT` and `numeral TEXT` give the parts of a literal and the number of a numeral.
//! - `names "NAME" ..` declares names, and seeks each one after a `?`.
//! - `binders NAME ..` binds names, and seeks each one after a `?`. `-` and `-NUMBER` unbind the
//!   last ones, and `#` gives how many there are.
//! - `walk STEPS` gives whether binders are found as by a search.
//! - `fault TEXT` gives the first fault of a description.
//! - `kinds TEXT` gives the first letters of the kinds of the data types, the built-in ones first,
//!   and the number of the top's definition.
//! - `type TEXT` and `body TEXT` give the type and the body of the last definition, `resets TEXT`
//!   the domains that have a reset, and `rest TEXT` the rest.
//! - `types TEXT` gives the types of the bodies of all definitions.
//! - `width TEXT` gives the width of the type of the last definition.
//! - `value NUMBER TEXT` gives what the number means as a value of that type: the number of its
//!   constructor, its field if it has one, and the number of its bits.
//! - `words "WORD" .. "WORD"` gives the command that words are, with its files and its numbers.
//! - `budget WORD` gives the budget that a word is.
#![tactic(auto)]

mod layouts;
mod limits;
mod literals;
mod names;
mod printed;
mod programs;
mod resolved;
mod split;
mod tables;
mod texts;
mod tree;
mod trees;
mod typed;
mod words;

use chw_base::Or;
use layouts::{put_value, put_width};
use resolved::put_resolved;
use row_tables::{Unread, print_rows};
use std::alloc::Global;
use std::io;
use typed::put_types;
use words::{put_budget, put_command};

fn main(rt: HostRuntime) -> io::Result<()> {
    print_rows(&rt, answer)
}

// Writes what a call gives.
fn answer(alloc: Global, call: &str, text: &str, out: &mut Vec<u8>) -> Result<(), Or<Unread>> {
    match call {
        "tokens" | "terminals" | "tree" | "cuts" | "print" => {
            texts::answer(alloc, call, text, out)
        }
        "fault" => put_resolved(alloc, text, false, out),
        "kinds" => put_resolved(alloc, text, true, out),
        "type" | "body" | "rest" | "resets" => programs::answer(alloc, call, text, out),
        "types" => put_types(alloc, text, out),
        "width" => put_width(alloc, text, out),
        "value" => put_value(alloc, text, out),
        "words" => put_command(alloc, text, out),
        "budget" => Ok(put_budget(text, out)?),
        _ => names::answer(alloc, call, text, out),
    }
}
