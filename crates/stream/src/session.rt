// What a program reads from and prints to.
ghost use Rattle.std.specs.Prelude.{◌≡◌};
ghost use Rattle.buffered.specs.Input.{Begins};

use buffered::input::Reader;
use buffered::text::Text;

// Both are needed wherever input is read: the text is written out before a read, which may wait.
#[derive(Drop)]
pub struct Session<'a> {
    pub input: Reader<'a>,
    pub text: Text<'a>,
}

impl<'a> Session<'a> {
    // The bytes that wait.
    pub fn waiting(&self) -> &[u8]
        ensures { result.now ≡ self.now.input }
    {
        self.input.waiting()
    }

    // Reads until n bytes wait, or as many as are left of the input. Those that waited still do, in front.
    pub fn fill(&mut self, n: usize)
        ensures { Begins self.old.input self.new.input }
    {
        self.input.fill(n, &mut self.text);
    }
}
