// The records of a text, as the kit's `csv` reads them.
ghost use Rattle.std.specs.Prelude.{◌≡◌, false, IfErr, IfOk, map};
ghost use Rattle.csv.specs.Reading.{AreRecords, strip_bom};
ghost use Rattle.csv.specs.Records.{fields_of};
ghost use Rattle.csv.specs.declared.parser.State.TheVariants as st;
ghost use Rattle.task_tables.specs.Forms.{config_of};
ghost use Rattle.task_tables.specs.Refusals.{is_misread};

use crate::errors::ReadError;
use crate::forms::FieldsForm;
use csv::{ByteRecord, ReaderBuilder};
use std::alloc::Global;

// A line that begins with this byte is a comment.
const COMMENT: u8 = b'#';

// The records of a text of some form.
pub(crate) fn read_records(
    alloc: Global,
    form: FieldsForm,
    text: &[u8],
) -> Result<Vec<ByteRecord>, ReadError>
    ensures records { IfOk result (λ rows.
        AreRecords (config_of form) st.StartRecord (strip_bom text.now) (map fields_of rows.items)) }
    ensures refused { IfErr result (λ e. is_misread e ≡ false) }
{
    let delimiter = form.delimiter();
    let reader = ReaderBuilder::new()
        .delimiter(delimiter)
        .comment(Some(COMMENT))
        .has_headers(false)
        .flexible(true)
        .from_reader(alloc, text);
    let mut rows = Vec::new(alloc);
    for row in reader.into_byte_records() {
        rows.push(row?)?;
    }
    Ok(rows)
}
