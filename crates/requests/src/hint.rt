ghost use Rattle.std.specs.Prelude.{◌≡◌};
ghost use Rattle.requests.specs.Hints.{hint_of};

use command_line::Argument;

/// What would do in place of a malformed value: the argument's name, with its range or its names.
pub(crate) fn hint(argument: Argument) -> &'static str
    ensures { result.now ≡ hint_of argument }
{
    match argument {
        Argument::Harts => "--harts is a number from 1 to 8",
        Argument::Memory => "--memory is a multiple of 4096 from 65536 to 4194304",
        Argument::Steps => "--steps is a number below 4294967296",
        Argument::Cache => {
            "--cache is small, normal, 1x1, 1x2, 2x1, 2x2, 4x1, 4x2, 8x2, 8x4, 16x4, 64x4 or 64x8"
        }
        Argument::Stats => "--stats is table or csv",
        Argument::Seed => "--seed is a number below 4294967296",
        Argument::Mix => {
            "--mix is three numbers below 4294967296 that are not all 0, as 30,30,1"
        }
        Argument::Trace => "--trace is - or the path of a file that the run doesn't read",
        Argument::Timeline => {
            "--timeline is the path of a file that ends in .json, .svg or .html, and that the run doesn't read"
        }
        Argument::History => "--history is the path of a file that the run doesn't read, and not -",
        Argument::States => "--states is a number below 4294967296",
        Argument::Witness => {
            "--witness is the number of an outcome, and the path of a file that isn't the program's, and not -"
        }
        Argument::Word => "WORD is an address below 4294967296, as 0x2000",
    }
}
