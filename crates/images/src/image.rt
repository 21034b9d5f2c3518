// An accepted image and its parts.
ghost use Rattle.std.specs.Prelude.{◌≡◌, ◌<◌, ◌≤◌, [], length, get_or};
ghost use Rattle.definitions.specs.Limits.{max_columns};
ghost use Rattle.definitions.specs.Image.{header, column_count, row_count, column_words, image_rows};
ghost use Rattle.definitions.specs.Questions.{image_number};

// The words of an image to which the questions 1 to 7 are answered yes, with at most ROWS rows.
#[derive(Clone, Copy)]
pub struct Image<'a, const ROWS: usize> {
    pub words: &'a [u32],
    pub ghost accepted: { image_number ROWS words.now ≡ 0 },
}

impl<'a, const ROWS: usize> Image<'a, ROWS> {
    fn header(self) -> u32
        ensures { result ≡ header self.entry.words.now }
    {
        self.words[0]
    }

    pub fn columns(self) -> usize
        ensures count { result ≡ column_count self.entry.words.now }
        ensures few { result ≤ max_columns }
    {
        words::columns(self.header()) as usize
    }

    pub fn rows(self) -> usize
        ensures count { result ≡ row_count self.entry.words.now }
        ensures few { result ≤ ROWS }
    {
        words::rows(self.header()) as usize
    }

    pub fn column_words(self) -> &'a [u32]
        ensures words { result.now ≡ column_words self.entry.words.now }
        ensures len { length result.now ≡ column_count self.entry.words.now }
        ensures few { length result.now ≤ max_columns }
    {
        let end = 1 + self.columns();
        &self.words[1..end]
    }

    // The row at an index.
    pub fn row(self, i: usize) -> &'a [u32]
        requires { i < row_count self.words.now }
        ensures cells { result.now ≡ get_or (image_rows self.entry.words.now) i [] }
        ensures len { length result.now ≡ column_count self.entry.words.now }
    {
        let columns = self.columns();
        let from = 1 + columns + i * columns;
        let end = from + columns;
        &self.words[from..end]
    }
}
