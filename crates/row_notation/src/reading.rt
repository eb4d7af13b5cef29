//! What a text says.
use crate::parts::Parts;
use chw_base::Or;
use row_tables::Unread;
use std::alloc::Global;
use std::mem;

/// The parts of a text. Words end at spaces and parentheses, and `@` says nothing.
///
/// A text for which memory is wanting is unread too.
pub fn read<'a>(alloc: Global, text: &'a str) -> Result<Parts<'a>, Or<Unread>> {
    read_words(alloc, text).ok_or(Or::Fault(Unread))
}

fn read_words<'a>(alloc: Global, text: &'a str) -> Option<Parts<'a>> {
    let mut reader = Reader {
        alloc,
        parts: Parts::new(alloc, "row"),
        outer: Vec::new(alloc),
    };
    for piece in text.split(' ') {
        reader.read_piece(piece)?;
    }
    if reader.outer.is_empty() {
        Some(reader.parts)
    } else {
        None
    }
}

#[derive(Drop)]
struct Reader<'a> {
    alloc: Global,
    /// The parts of the group that has not ended yet.
    parts: Parts<'a>,
    /// Those of the groups around it, the outermost first.
    outer: Vec<Parts<'a>>,
}

impl<'a> Reader<'a> {
    // A word with the parentheses around it.
    fn read_piece(&mut self, piece: &'a str) -> Option<()> {
        for sign in piece.chars() {
            if sign == '(' {
                let around = mem::replace(&mut self.parts, Parts::new(self.alloc, ""));
                self.outer.push(around).ok()?;
            }
        }
        let word = piece.trim_matches(|sign: char| matches!(sign, '(' | ')' | '@'));
        if !word.is_empty() {
            self.parts.add_word(self.alloc, word)?;
        }
        for sign in piece.chars() {
            if sign == ')' {
                self.end_group()?;
            }
        }
        Some(())
    }

    fn end_group(&mut self) -> Option<()> {
        let around = self.outer.pop()?;
        let mut ended = mem::replace(&mut self.parts, around);
        self.parts.add_group(self.alloc, &mut ended)
    }
}
