//! Records of an export, written by `csv`. Over memory its writer refuses for want of it alone.
ghost use Rattle.csv.specs.Writing.{default_writer, row_text};
ghost use Rattle.std.specs.Prelude.{◌≡◌, ◌++◌, ◌∷◌, [], IfOk, decimal};
ghost use Rattle.wb_office.specs.Exports.{optional_field, optional_signed_field};

use csv::{ByteRecord, Writer};
use itoa::Buffer;
use std::alloc::{AllocError, Global};
use std::marker::Model;
use wb_messages::CsvText;

/// The bytes of a record of the journal, and its fields; those of a ticket are fewer.
const RECORD: usize = 192;

const FIELDS: usize = 11;

/// The fields of a record, seen as their bytes.
#[derive(Drop)]
pub(crate) struct Fields {
    record: ByteRecord,
}

impl Model for Fields {
    ghost use Rattle.csv.specs.Records.{fields_of, partial_of};
    ghost use Rattle.std.specs.Prelude.{◌≡◌, ℕ, List, []};

    ghost Value = { List (List ℕ) };

    ghost view = { λ f. fields_of f.record };

    ghost invariant = { λ f. partial_of f.record ≡ [] };
}

impl Fields {
    /// No field.
    pub(crate) fn new(alloc: Global) -> Result<Self, AllocError>
        ensures { IfOk result (λ fields. fields ≡ []) }
    {
        Ok(Fields {
            record: ByteRecord::with_capacity(alloc, RECORD, FIELDS)?,
        })
    }

    /// With a text as one field more.
    pub(crate) fn text(self, text: &str) -> Result<Self, AllocError>
        ensures { IfOk result (λ fields. fields ≡ self ++ text.now ∷ []) }
    {
        let Fields { mut record } = self;
        record.push_field(text.as_bytes())?;
        Ok(Fields { record })
    }

    /// With a number as one field more.
    pub(crate) fn number(self, number: u32) -> Result<Self, AllocError>
        ensures { IfOk result (λ fields. fields ≡ self ++ decimal number ∷ []) }
    {
        let mut buffer = Buffer::new();
        self.text(buffer.format(number))
    }

    /// With a number as one field more, which is empty where there is none.
    pub(crate) fn optional(self, number: Option<u32>) -> Result<Self, AllocError>
        ensures { IfOk result (λ fields. fields ≡ self ++ optional_field number ∷ []) }
    {
        match number {
            Some(number) => self.number(number),
            None => self.text(""),
        }
    }

    /// The same of a number that may be negative.
    pub(crate) fn optional_signed(self, number: Option<i32>) -> Result<Self, AllocError>
        ensures { IfOk result (λ fields. fields ≡ self ++ optional_signed_field number ∷ []) }
    {
        match number {
            Some(number) => {
                let mut buffer = Buffer::new();
                self.text(buffer.format(number))
            }
            None => self.text(""),
        }
    }
}

/// Records one after the other, seen as their text. The writer has a room of 8 kB, so it is handed on by its place.
#[derive(Drop)]
pub(crate) struct Export {
    writer: Box<Writer<Vec<u8>>>,
}

impl Model for Export {
    ghost use Rattle.csv.specs.Writing.{default_writer, fields_written, has_written, writer_pending, writer_setup, writer_under};
    ghost use Rattle.std.specs.Prelude.{◌≡◌, ◌++◌, ℕ, List, false};

    ghost Value = { List ℕ };

    ghost view = { λ e. (writer_under e.writer.value).items ++ writer_pending e.writer.value };

    ghost invariant = { λ e. (writer_setup e.writer.value ≡ default_writer) × (fields_written e.writer.value ≡ 0) × (has_written e.writer.value ≡ false) };
}

impl Export {
    /// No record.
    pub(crate) fn new(alloc: Global) -> Result<Self, AllocError>
        ensures { IfOk result (λ export. export ≡ []) }
    {
        Ok(Export {
            writer: Box::new(alloc, Writer::from_writer(Vec::new(alloc)))?,
        })
    }

    /// With one record more.
    pub(crate) fn with(self, fields: &Fields) -> Result<Self, AllocError>
        ensures { IfOk result (λ export. export
            ≡ self ++ row_text default_writer fields.now) }
    {
        let Export { mut writer } = self;
        match writer.write_byte_record(&fields.record) {
            Ok(()) => Ok(Export { writer }),
            Err(_) => Err(AllocError),
        }
    }

    /// The text.
    pub(crate) fn into_text(self) -> Result<CsvText, AllocError>
        ensures { IfOk result (λ text. text ≡ self) }
    {
        let Export { writer } = self;
        match Box::into_inner(writer).into_inner() {
            Ok(bytes) => Ok(CsvText::new(bytes)),
            Err(_) => Err(AllocError),
        }
    }
}
