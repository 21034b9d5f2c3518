// The fields of a 32-bit word of an image, by shifts and masks: each is a shift and a mask of its own, so that one function over both
// would say no more.
#![tactic(auto)]

ghost use Rattle.std.specs.Prelude.{◌≡◌, ◌<◌, ◌%◌, ◌^◌};
ghost use Rattle.definitions.specs.Word.{kind_of, word_of, rows_of, columns_of, header_spare, header_word, id_of, mark_of, column_spare};
ghost use Rattle.definitions.specs.Word.{column_word, is_cell};
ghost use Rattle.definitions.specs.Image.{is_header};

// The cell that says: there is none. Of kind 2, all other bits zero.
pub const NONE: u32 = 0x8000_0000;

// The two top bits. A kind is its number, which document 01 asks to be matched.
pub fn kind(w: u32) -> u32
    ensures { result ≡ kind_of w }
{
    w >> 30
}

// The bits below the kind: a cell's number, the marks of a mark word, or a position.
pub fn low_bits(w: u32) -> u32
    ensures { result ≡ w % 2 ^ 30 }
{
    w & 0x3fff_ffff
}

// Bits 29 to 18 of a header.
pub fn rows(w: u32) -> u32
    ensures { result ≡ rows_of w }
{
    (w >> 18) & 0xfff
}

// Bits 4 to 0 of a header.
pub fn columns(w: u32) -> u32
    ensures { result ≡ columns_of w }
{
    w & 0x1f
}

// Bits 17 to 5 of a header.
pub fn header_spare(w: u32) -> u32
    ensures { result ≡ header_spare w }
{
    (w >> 5) & 0x1fff
}

// Whether a word is a header: of kind 3, with bits 17 to 5 zero.
pub fn is_header(w: u32) -> bool
    ensures { result ≡ is_header w }
{
    kind(w) == 3 && header_spare(w) == 0
}

// Bits 15 to 0 of a column word.
pub fn id(w: u32) -> u32
    ensures { result ≡ id_of w }
{
    w & 0xffff
}

// Whether a column word has the mark, bit 29.
pub fn is_marked(w: u32) -> bool
    ensures { result ≡ mark_of w }
{
    (w >> 29) & 1 == 1
}

// Bits 28 to 16 of a column word.
pub fn column_spare(w: u32) -> u32
    ensures { result ≡ column_spare w }
{
    (w >> 16) & 0x1fff
}

// Whether a word may stand as a cell: zero, of kind 1, or `NONE`. That one is a guard on the range: with an arm of its own for kind 2, LLVM
// makes a jump table of the match, and a jump for each cell.
pub fn is_cell(w: u32) -> bool
    ensures { result ≡ is_cell w }
{
    match kind(w) {
        0 => w == 0,
        1 => true,
        2.. if w == NONE => true,
        2.. => false,
    }
}

// A word of a kind with its low 30 bits.
pub fn word_of(kind: u32, low: u32) -> u32
    requires { (kind < 4) × (low < 2 ^ 30) }
    ensures { result ≡ word_of kind low }
{
    (kind << 30) | low
}

// A header with its number of rows, or of sets, and its width.
pub fn header_word(rows: u32, columns: u32) -> u32
    requires { (rows < 2 ^ 12) × (columns < 2 ^ 5) }
    ensures { result ≡ header_word rows columns }
{
    word_of(3, (rows << 18) | columns)
}

// The word of a column with its id, marked or not.
pub fn column_word(id: u32, marked: bool) -> u32
    requires { id < 2 ^ 16 }
    ensures { result ≡ column_word id marked }
{
    word_of(2, (u32::from(marked) << 29) | id)
}
