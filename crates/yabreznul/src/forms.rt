// The forms of the subcommands: their arguments, and what help says of them.

/// What an argument takes, with the names of its values in help.
#[derive(Clone, Copy)]
pub(crate) enum Operand {
    /// One word, told by where it stands.
    Word(&'static str),
    /// Any number of words, told by where they stand.
    Words(&'static str),
    /// A word behind the name of the option.
    Text(&'static str),
    /// A word behind the name of the option, or behind a letter.
    Lettered(char, &'static str),
    /// A number behind the name of the option.
    Number(&'static str),
    /// The accuracies of bounds, each behind the word of its kind: an option for each kind of bounds that
    /// has accuracies, of which at least one is to be given.
    Accuracies(&'static str),
    /// The accuracy of a bound, behind the word of its kind: the same options, of which one may be given.
    Accuracy(&'static str),
    /// Nothing.
    Nothing,
    /// Nothing, and not beside another option.
    NothingBeside(&'static str),
}

/// An argument of a subcommand.
#[derive(Clone, Copy)]
pub(crate) struct Argument {
    pub(crate) name: &'static str,
    pub(crate) takes: Operand,
    pub(crate) required: bool,
    pub(crate) help: &'static str,
}

/// A subcommand.
#[derive(Clone, Copy)]
pub(crate) struct SubcommandForm {
    pub(crate) name: &'static str,
    pub(crate) about: &'static str,
    pub(crate) example: &'static str,
    pub(crate) arguments: &'static [Argument],
}

/// What the command is about, and an example.
pub(crate) const ABOUT: &str =
    "Counts the demand of fixed-priority tasks, in exact steps and by bounds";

pub(crate) const EXAMPLE: &str = "Example:\n  yabreznul file worked.csv --linear 3 --out worked";

/// The subcommands, in the order of help.
pub(crate) const FORMS: &[SubcommandForm] = &[FILE, SHOW, COMPARE, PLOT, SHEET, RESPOND, BENCH];

const FILE: SubcommandForm = SubcommandForm {
    name: "file",
    about: "Counts a task table in exact steps and by bounds, files the leaves and prints the table",
    example: EXAMPLE,
    arguments: &[TABLE, ACCURACIES, FRAME, OUT, FORCE],
};

const SHOW: SubcommandForm = SubcommandForm {
    name: "show",
    about: "Prints what leaves hold, as tables",
    example: "Example:\n  yabreznul show worked.exact.leaf worked.linear-3.leaf",
    arguments: &[CSV, JSON, LEAVES],
};

const COMPARE: SubcommandForm = SubcommandForm {
    name: "compare",
    about: "Sets two leaves of one table beside each other",
    example: "Example:\n  yabreznul compare worked.exact.leaf worked.linear-1.leaf",
    arguments: &[FIRST, SECOND],
};

const PLOT: SubcommandForm = SubcommandForm {
    name: "plot",
    about: "Draws the demand of one row as a picture",
    example: "Example:\n  yabreznul plot worked.csv --rank 3 --linear 3 -o third.svg",
    arguments: &[TABLE, RANK, ACCURACIES, FRAME, OUTPUT, FORCE],
};

const SHEET: SubcommandForm = SubcommandForm {
    name: "sheet",
    about: "Writes the sheet of a table, which survey answers",
    example: "Example:\n  yabreznul sheet worked.csv --linear 3 | survey > worked.leaf",
    arguments: &[TABLE, ACCURACY, FRAME],
};

const RESPOND: SubcommandForm = SubcommandForm {
    name: "respond",
    about: "Prints the exact response time of each row of a table, with no frame",
    example: "Example:\n  yabreznul respond worked.csv",
    arguments: &[TABLE],
};

const BENCH: SubcommandForm = SubcommandForm {
    name: "bench",
    about: "Plays a script of calls on an admission bench",
    example: "Example:\n  yabreznul bench calls.txt",
    arguments: &[SCRIPT],
};

const TABLE: Argument = Argument {
    name: "table",
    takes: Operand::Word("TABLE"),
    required: false,
    help: "The task table; - or none is standard input",
};

const ACCURACIES: Argument = Argument {
    name: "accuracies",
    takes: Operand::Accuracies("K"),
    required: true,
    help: "The bounds by their accuracies",
};

const ACCURACY: Argument = Argument {
    name: "accuracy",
    takes: Operand::Accuracy("K"),
    required: false,
    help: "The bound by its accuracy",
};

const FRAME: Argument = Argument {
    name: "frame",
    takes: Operand::Number("H"),
    required: false,
    help: "The frame; without it the least common multiple of the periods",
};

const OUT: Argument = Argument {
    name: "out",
    takes: Operand::Text("NAME"),
    required: true,
    help: "Names the leaves: NAME.exact.leaf, and as NAME.linear-K.leaf that of each bound",
};

const FORCE: Argument = Argument {
    name: "force",
    takes: Operand::Nothing,
    required: false,
    help: "Overwrites files that are there already",
};

const CSV: Argument = Argument {
    name: "csv",
    takes: Operand::NothingBeside("json"),
    required: false,
    help: "Prints CSV, for programs",
};

const JSON: Argument = Argument {
    name: "json",
    takes: Operand::Nothing,
    required: false,
    help: "Prints JSON, for programs",
};

const LEAVES: Argument = Argument {
    name: "leaf",
    takes: Operand::Words("LEAF"),
    required: false,
    help: "The leaves; - or none is standard input",
};

const FIRST: Argument = Argument {
    name: "first",
    takes: Operand::Word("A"),
    required: true,
    help: "A leaf; - is standard input",
};

const SECOND: Argument = Argument {
    name: "second",
    takes: Operand::Word("B"),
    required: true,
    help: "Another leaf of the same table",
};

const RANK: Argument = Argument {
    name: "rank",
    takes: Operand::Number("R"),
    required: true,
    help: "The row to draw, 1 the highest",
};

const OUTPUT: Argument = Argument {
    name: "output",
    takes: Operand::Lettered('o', "FILE.svg"),
    required: true,
    help: "The file to write; - is standard output",
};

const SCRIPT: Argument = Argument {
    name: "script",
    takes: Operand::Word("SCRIPT"),
    required: false,
    help: "The script; - or none is standard input",
};
