// A signature as it is printed: the line of its key, and a line of numbers for each of its rows.
ghost use Rattle.std.specs.Prelude.{[], map, Some};
ghost use Rattle.hash.specs.Value.{value_of};
ghost use Rattle.signatures.specs.Lines.{numbers_line, signature_text};
ghost use Rattle.signatures.specs.Views.{viewed};

use crate::view::SignatureView;
use hash::Number;
use std::fmt;

// Numbers, each after one space.
#[derive(Clone, Copy)]
pub struct SpacedNumbers<'a>(pub &'a [Number]);

impl fmt::Display for SpacedNumbers<'_> {
    ghost output = { λ s. Some (numbers_line [] (map value_of s.0.now)) };

    fn fmt<W: fmt::Write>(&self, f: &mut fmt::Formatter<W>) -> fmt::Result {
        for number in self.0 {
            write!(f, " {number}")?;
        }
        Ok(())
    }
}

// The four lines, the last with no newline.
impl fmt::Display for SignatureView<'_> {
    ghost output = { λ g. Some (signature_text (viewed g)) };

    fn fmt<W: fmt::Write>(&self, f: &mut fmt::Formatter<W>) -> fmt::Result {
        let key = self.key;
        let parts = SpacedNumbers(self.parts);
        let others = SpacedNumbers(self.others);
        let path = SpacedNumbers(self.path);
        write!(f, "key {key}\nparts{parts}\nothers{others}\npath{path}")
    }
}
