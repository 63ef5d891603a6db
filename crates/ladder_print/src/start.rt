// A ladder at its start.
ghost use Rattle.std.specs.Prelude.{◌≡◌, Ok};
ghost use Rattle.ladder_text.specs.RunFile.{file_of};

use ladder_run::Ladder;
use ladder_text::RunFile;

// The ladder that a run file sets up, and the file: its line one, and the place of its fates in the input.
#[derive(Clone, Copy)]
pub(crate) struct Start<'a> {
    pub(crate) ladder: Ladder,
    pub(crate) file: RunFile,
    pub(crate) input: &'a [u8],
    ghost taken: { file_of input.now ≡ Ok file },
}
