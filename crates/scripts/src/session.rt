// The session of a script: the bound that it names, and the bench on which its calls are played.
ghost use Rattle.std.specs.Prelude.{◌≡◌};
ghost use Rattle.bounds.specs.Values.{meaning_of};
ghost use Rattle.scripts.specs.Sessions.{naming, calling, heard, is_named, named, reaction_of, state_of};

use crate::expecting::ExpectedWords;
use crate::lines::ScriptLine;
use admission::{Bench, Reply};
use bounds::{Family, Supplied};

// What a script has come to: no bound is named yet, or the calls are played on a bench by it.
#[derive(Debug, Drop)]
pub(crate) enum Session {
    Unnamed,
    Named(Bench<Supplied>),
}

// What there is to write for a line: nothing, the answer to a call, or what was expected.
#[derive(Clone, Copy, PartialEq, Eq, Debug)]
pub(crate) enum Remark {
    Silence,
    Answer(Reply),
    NoCall(ExpectedWords),
}

impl Session {
    // Whether a bound is named.
    pub(crate) fn is_named(&self) -> bool
        ensures { result ≡ is_named (state_of self.now) }
    {
        matches!(self, Session::Named(_))
    }

    // Does what a line says.
    pub(crate) fn hear(&mut self, line: ScriptLine) -> Remark
        ensures { heard (state_of self.old) line ≡ (state_of self.new, reaction_of result) }
    {
        match self {
            Session::Named(bench) => call(bench, line),
            Session::Unnamed => {
                let (session, remark) = name(line);
                *self = session;
                remark
            }
        }
    }
}

// Names the bound, if the line does: the session that follows, and what there is to write.
fn name(line: ScriptLine) -> (Session, Remark)
    ensures { naming line ≡ (state_of result.0, reaction_of result.1) }
{
    match line {
        ScriptLine::Bound(family, accuracy) => begin(family, accuracy),
        ScriptLine::NoCall(expected) => (Session::Unnamed, Remark::NoCall(expected)),
        ScriptLine::Passed | ScriptLine::Call(_) => (Session::Unnamed, Remark::Silence),
    }
}

// Begins with a new bench by the bound of a kind and an accuracy.
#[tactic(auto, using(crate::proofs::Named::meaning_named))]
fn begin(family: Family, accuracy: u32) -> (Session, Remark)
    ensures { naming (ScriptLine.Bound family accuracy) ≡ (state_of result.0, reaction_of result.1) }
{
    match family.bound(accuracy) {
        Ok(bound) => (Session::Named(Bench::new(bound)), Remark::Silence),
        Err(fault) => (Session::Unnamed, Remark::Answer(Reply::Refused(fault))),
    }
}

// Makes a call, if the line is one.
fn call(bench: &mut Bench<Supplied>, line: ScriptLine) -> Remark
    ensures { calling (meaning_of bench.old.bound) bench.old.book line
        ≡ (named (meaning_of bench.new.bound) bench.new.book, reaction_of result) }
{
    match line {
        ScriptLine::Call(call) => Remark::Answer(bench.call(call)),
        ScriptLine::NoCall(expected) => Remark::NoCall(expected),
        ScriptLine::Passed | ScriptLine::Bound(..) => Remark::Silence,
    }
}
