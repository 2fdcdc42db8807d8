//! What holds of commands and jobs: functions that do nothing, whose contracts are laws.

ghost use Rattle.byte_fields.specs.Codec.{IsCodec};
ghost use Rattle.byte_fields.specs.Cuts.{IsCut};
ghost use Rattle.cmd_capture.specs.Capture.{CapturedHaveASpelling};
ghost use Rattle.cmd_capture.specs.Fields.{command_fields, job_row_fields, job_fields};
ghost use Rattle.cmd_capture.specs.Reading.{command_at, job_row_at, job_at};
ghost use Rattle.cmd_capture.specs.Broken.{BrokenParts, BrokenLists, BrokenCommands, LongCommands, BrokenJobRows, BrokenJobs};
ghost use Rattle.cmd_capture.specs.Spelling.{command, job_row, job, IsCommand, RowFits, IsJob};

/// States that each command and each job has one spelling, and each spelling one of them.
pub fn commands_are_spelled_once()
    ensures commands { IsCodec command_at command IsCommand }
    ensures rows { IsCodec job_row_at job_row RowFits }
    ensures jobs { IsCodec job_at job IsJob }
{}

/// States that, where the bytes end inside a command or a job, the field in which they end is the faulty one.
pub fn commands_end_with_their_bytes()
    ensures commands { IsCut command_at command command_fields IsCommand }
    ensures rows { IsCut job_row_at job_row job_row_fields RowFits }
    ensures jobs { IsCut job_at job job_fields IsJob }
{}

/// States at which field a command or a job that breaks a rule is refused, whatever stands before and behind it.
pub fn broken_commands_are_refused_at_their_field()
    ensures parts { BrokenParts }
    ensures lists { BrokenLists }
    ensures commands { BrokenCommands }
    ensures long { LongCommands }
    ensures rows { BrokenJobRows }
    ensures jobs { BrokenJobs }
{}

/// States that what is captured has a spelling.
pub fn captured_commands_have_a_spelling()
    ensures { CapturedHaveASpelling }
{}
