//! The laws. The functions do nothing: what they ensure is the law.

ghost use Rattle.standing_sequences.specs.Example.{ExampleStands};
ghost use Rattle.standing_sequences.specs.Laws.{ChoicesAreTheTables, FieldsStand, ImagesWithTheTableAgree};
ghost use Rattle.standing_sequences.specs.Laws.{LinkedImagesHoldTheTable, OwnBytesStand, RewrittenFormsStand};
ghost use Rattle.standing_sequences.specs.Laws.{RowsDiffer, SequencesStandByTheTable};

/// If the table gives a sequence another form, that form stands in its place, whole, and its field holds its value.
pub fn rewritten_forms_stand()
    ensures { RewrittenFormsStand }
{}

/// Everywhere else in the sections of objects their own bytes stand,
pub fn own_bytes_stand()
    ensures { OwnBytesStand }
{}

/// except in fields, which hold the values of their relocations.
pub fn fields_stand()
    ensures { FieldsStand }
{}

/// No form in the table can be mistaken for the one that it replaces, whatever their fields hold.
pub fn rows_differ()
    ensures { RowsDiffer }
{}

/// So at the place of each sequence there is a rewritten form exactly if the table gives one, and else the sequence.
pub fn sequences_stand_by_the_table()
    ensures { SequencesStandByTheTable }
{}

/// All of it: the image that a linker makes of objects holds the table. `commands` says this of each image that is put
/// into a file, and of each that is loaded.
pub fn linked_images_hold_the_table()
    ensures { LinkedImagesHoldTheTable }
{}

/// It says what each byte of a section is: two images that hold the table have the same bytes there.
pub fn images_with_the_table_agree()
    ensures { ImagesWithTheTableAgree }
{}

/// The linker's choice for a sequence is that of the table.
pub fn choices_are_the_tables()
    ensures { ChoicesAreTheTables }
{}

/// This holds, for example, in a program with three sequences, linked with rewriting and without.
pub fn example_stands()
    ensures { ExampleStands }
{}
