// The forms that a line may have, and the numbers that stand in them.
ghost use Rattle.std.specs.Prelude.{◌≡◌, ◌≤◌, true, false, Some, length};
ghost use Rattle.scripts.specs.Forms.{field_text, form_fields, form_for, forms_once, form_name, form_text};

use bounds::Family;
use std::fmt;

/// A form of a line (docs/PROGRAMS.md, `bench`): its first word, and the numbers that follow it.
#[derive(Clone, Copy, PartialEq, Eq, Debug)]
pub enum LineForm {
    /// A word of `bounds::Family` names a bound of the kind, and K its accuracy where there is one for
    /// each: `exact`, or `linear K`.
    Bound(Family),
    /// `frame H` sets the frame.
    Frame,
    /// `admit RANK C D T J` puts a row in.
    Admit,
    /// `dismiss RANK` takes a row out.
    Dismiss,
    /// `inquire RANK` asks for a row and its finding.
    Inquire,
}

/// A number in a form, which the form names by a letter or by `RANK`.
#[derive(Clone, Copy, PartialEq, Eq, Debug)]
pub enum Field {
    Rank,
    Accuracy,
    Frame,
    Work,
    Deadline,
    Period,
    Jitter,
}

impl LineForm {
    // The first word of a line of the form.
    pub(crate) fn name(self) -> &'static [u8]
        ensures { result.now ≡ form_name self }
    {
        match self {
            LineForm::Bound(family) => family.word().as_bytes(),
            LineForm::Frame => b"frame",
            LineForm::Admit => b"admit",
            LineForm::Dismiss => b"dismiss",
            LineForm::Inquire => b"inquire",
        }
    }

    // The numbers that follow it, in order: at most five.
    pub(crate) fn fields(self) -> &'static [Field]
        ensures fields { result.now ≡ form_fields self }
        ensures few { length result.now ≤ 5 }
    {
        match self {
            LineForm::Bound(family) if family.has_accuracies() => &[Field::Accuracy],
            LineForm::Bound(_) => &[],
            LineForm::Frame => &[Field::Frame],
            LineForm::Admit => &[
                Field::Rank,
                Field::Work,
                Field::Deadline,
                Field::Period,
                Field::Jitter,
            ],
            LineForm::Dismiss | LineForm::Inquire => &[Field::Rank],
        }
    }

    // The forms of calls.
    fn calls() -> &'static [LineForm]
        ensures { result.now ≡ forms_once true }
    {
        &[
            LineForm::Frame,
            LineForm::Admit,
            LineForm::Dismiss,
            LineForm::Inquire,
        ]
    }

    // The forms that name a bound, one for each kind.
    fn bounds() -> [LineForm; Family::ALL.len()]
        ensures { result ≡ forms_once false }
    {
        Family::all().map(LineForm::Bound)
    }

    // The form that a line may have and that its first word names: until a bound has been named one that
    // names it, and then a call.
    pub(crate) fn of(word: &[u8], named: bool) -> Option<LineForm>
        ensures { result ≡ form_for named word.now }
    {
        if named {
            LineForm::calls()
                .iter()
                .copied()
                .find(|form| form.name() == word)
        } else {
            LineForm::bounds()
                .iter()
                .copied()
                .find(|form| form.name() == word)
        }
    }
}

// A form as docs/PROGRAMS.md writes it: "admit RANK C D T J".
impl fmt::Display for LineForm {
    ghost output = { λ x. Some (form_text x) };

    fn fmt<W: fmt::Write>(&self, f: &mut fmt::Formatter<W>) -> fmt::Result {
        match self {
            LineForm::Bound(family) => {
                let word = family.word();
                if family.has_accuracies() {
                    write!(f, "{word} K")
                } else {
                    f.write_str(word)
                }
            }
            LineForm::Frame => write!(f, "frame H"),
            LineForm::Admit => write!(f, "admit RANK C D T J"),
            LineForm::Dismiss => write!(f, "dismiss RANK"),
            LineForm::Inquire => write!(f, "inquire RANK"),
        }
    }
}

// A number of a form by its name there: "RANK", or a letter.
impl fmt::Display for Field {
    ghost output = { λ x. Some (field_text x) };

    fn fmt<W: fmt::Write>(&self, f: &mut fmt::Formatter<W>) -> fmt::Result {
        let text = match self {
            Field::Rank => "RANK",
            Field::Accuracy => "K",
            Field::Frame => "H",
            Field::Work => "C",
            Field::Deadline => "D",
            Field::Period => "T",
            Field::Jitter => "J",
        };
        write!(f, "{text}")
    }
}
