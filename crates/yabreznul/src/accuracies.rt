// The options that name bounds by their accuracies: one for each kind of bounds that has accuracies.
use bounds::{FINEST, Family};
use clap::{Arg, value_parser};
use std::alloc::{AllocError, Global};

/// How many of the options may be given beside one another.
#[derive(Clone, Copy)]
pub(crate) enum HowMany {
    /// One or more.
    AtLeastOne,
    /// One or none.
    AtMostOne,
}

/// An option that names a bound: by the word of its kind, with what help says of it.
#[derive(Drop)]
pub(crate) struct AccuracyOption {
    word: &'static str,
    help: String,
}

/// The options, in the order of the kinds.
pub(crate) fn accuracy_options(alloc: Global) -> Result<Vec<AccuracyOption>, AllocError> {
    let mut options = Vec::new(alloc);
    for family in Family::all() {
        if family.has_accuracies() {
            options.push(AccuracyOption::of(alloc, family)?)?;
        }
    }
    Ok(options)
}

impl AccuracyOption {
    // The option of a kind.
    fn of(alloc: Global, family: Family) -> Result<AccuracyOption, AllocError> {
        let (word, name) = (family.word(), family.name());
        let help = format!(in alloc; "The accuracy of the {name}, from 1 to {FINEST}")?;
        Ok(AccuracyOption { word, help })
    }

    /// The option, with what help calls its number, among all of them. Where a bound is to be named, one of
    /// them is required; where at most one may be, it is misused beside another.
    pub(crate) fn arg<'a>(
        &'a self,
        alloc: Global,
        value: &'static str,
        how_many: HowMany,
        all: &[AccuracyOption],
    ) -> Result<Arg<'a>, AllocError> {
        let others = self.others(alloc, all)?;
        let arg = Arg::new(alloc, self.word)
            .help(self.help.as_str())
            .value_name(value)
            .long(self.word)
            .value_parser(value_parser!(u32));
        match how_many {
            HowMany::AtLeastOne if others.is_empty() => Ok(arg.required(true)),
            HowMany::AtLeastOne => arg.required_unless_present_any(&others),
            HowMany::AtMostOne => arg.conflicts_with_all(&others),
        }
    }

    // The words of the other options.
    fn others(
        &self,
        alloc: Global,
        all: &[AccuracyOption],
    ) -> Result<Vec<&'static str>, AllocError> {
        let mut words = Vec::new(alloc);
        for option in all {
            if option.word != self.word {
                words.push(option.word)?;
            }
        }
        Ok(words)
    }
}
