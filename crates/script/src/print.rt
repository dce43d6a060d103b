// Calls and answers as text.
ghost use Rattle.std.specs.Prelude.{Some};
ghost use Rattle.mutator.specs.Refusals.{answer_of};
ghost use Rattle.script.specs.Text.{call_text, answer_text};

use mutator::{Ask, Entry, Numbers, Told};
use std::fmt;

// A call as its line is printed. `Ask` and `Told` are of another crate, which may not take impls from here.
#[derive(Clone, Copy)]
pub struct CallText(pub Ask);

// An answer as its line is printed.
#[derive(Clone, Copy)]
pub struct AnswerText(pub Told);

impl fmt::Display for CallText {
    ghost output = { λ q. Some (call_text q.0) };

    fn fmt<W: fmt::Write>(&self, f: &mut fmt::Formatter<W>) -> fmt::Result {
        let Entry { name, numbers, .. } = self.0.entry();
        match numbers {
            Numbers::Zero => write!(f, "{name}"),
            Numbers::One(a) => {
                let a = a.value();
                write!(f, "{name} {a}")
            }
            Numbers::Two(a, b) => {
                let a = a.value();
                let b = b.value();
                write!(f, "{name} {a} {b}")
            }
            Numbers::Three(a, b, c) => {
                let a = a.value();
                let b = b.value();
                let c = c.value();
                write!(f, "{name} {a} {b} {c}")
            }
        }
    }
}

impl fmt::Display for AnswerText {
    ghost output = { λ t. Some (answer_text (answer_of t.0)) };

    fn fmt<W: fmt::Write>(&self, f: &mut fmt::Formatter<W>) -> fmt::Result {
        let code = self.0.code;
        let val = self.0.val;
        write!(f, "{code} {val}")
    }
}
