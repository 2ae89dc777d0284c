ghost use Rattle.fields.specs.Names.{TableAgrees};
ghost use Rattle.fields.specs.Plain.{BuiltinReads};

/// A law: which numbers are built in, and what each reads, byte by byte.
pub fn builtin_reads()
    ensures { BuiltinReads }
{}

/// A law: what `reader_name` gives for a number, `reader_number` takes back to it, and the other way round.
pub fn table_agrees()
    ensures { TableAgrees }
{}
