//! The machine that reads the shapes of tokens: a table of states, and the scanner that runs it.
ghost use Rattle.std.specs.Prelude.{◌≡◌, ◌<◌};
ghost use Rattle.std.specs.Char.{len_utf8};
ghost use Rattle.wave_lex.specs.Derive.{nullable, derivative};
ghost use Rattle.wave_lex.specs.LongestMatch.{Greatest, IsPrefixOf};
ghost use Rattle.wave_lex.specs.Machines.{first_row, rest, rest_at};
ghost use Rattle.wave_lex.specs.Private.Machines.{longest_of};

/// Where the machine may begin: before a shape or within one. The number is that of its row.
#[derive(Clone, Copy)]
pub enum Start {
    /// Before a number.
    Number = 2,
    /// After a first zero of a number.
    Zero = 6,
    /// Within the whole part of a number.
    WholePart = 7,
    /// Within the fraction of a number.
    Fraction = 9,
    /// Before a function name.
    FunctionName = 13,
    /// Before a label.
    Label = 41,
    /// Within a lower-case word of a label.
    LowerWord = 42,
    /// Before a token of the class of labels.
    LabelOrKeyword = 46,
    /// Before a char.
    Character = 47,
    /// Before a string in one line.
    String = 59,
    /// Within a string in one line.
    InString = 60,
    /// Before an invalid token.
    Invalid = 70,
    /// Before whitespace.
    Whitespace = 78,
}

impl Start {
    /// The row at which it stands.
    #[inline(always)]
    fn first_row(self) -> usize
        ensures { result ≡ first_row self }
    {
        self as usize
    }
}

/// The row of all texts after which the shape has none.
const NOTHING: usize = 0;

/// The column of all scalars past ASCII.
const OTHERS: usize = 27;

/// The column of each scalar of ASCII, and last that of all others: `a` for the first.
static COLUMNS: [u8; 129] = *b"\
    |||||||||{z||{||||||||||||||||||\
    {|v||t|u|||o|nprabbbbbbbbbq|||||\
    skkkklkmmmmmmmmmmmmmmmmmmmm|w|||\
    |ccccdejjfjjjjgjjjhjhijjjjjx|y||\
    |";

/// A row for each state, named by the letter behind it, from `.` on. It has the row to which the machine
/// goes at each of these scalars, then whether the text may end there, `$` or `-`, and blanks up to a power of
/// two. The columns are of: 0, 1 to 9, abcd, e, f, i, n, rt, u, the other lower-case letters, ABCDF, E, the other upper-case
/// letters, - + . : / @ % ' " \ { }, a line feed, the other blanks, and all else.
static ROWS: [[u8; 32]; 81] = [
    *b"............................-   ", // . where a scalar may not follow
    *b"............................$   ", // / at the end of a shape
    // Numbers.
    *b"45...........1..............-   ", // 0 before one
    *b"45...2......................-   ", // 1 after -
    *b"......3.....................-   ", // 2 after -i
    *b"..../.......................-   ", // 3 after -in
    *b"...8.......8...6............$   ", // 4 after 0
    *b"55.8.......8...6............$   ", // 5 after 1
    *b"77..........................-   ", // 6 after 0.
    *b"77.8.......8................$   ", // 7 after 0.0
    *b"::...........99.............-   ", // 8 after 0e
    *b"::..........................-   ", // 9 after 0e-
    *b"::..........................$   ", // : after 0e0
    // Function names.
    *b"..<<<<<<<<===...............-   ", // ; before one
    *b"<<<<<<<<<<...>.J@.O.........$   ", // < after a
    *b"==........===>.J@.O.........$   ", // = after A
    *b"??<<<<<<<<===...............-   ", // > after a-
    *b"??<<<<<<<<===>.J@.O.........$   ", // ? after a-0
    *b"..AAAAAAAABBB...............-   ", // @ after a:
    *b"AAAAAAAAAA...C...E..........-   ", // A after a:a
    *b"BB........BBBC...E..........-   ", // B after a:A
    *b"DDAAAAAAAABBB...............-   ", // C after a:a-
    *b"DDAAAAAAAABBBC...E..........-   ", // D after a:a-0
    *b"..FFFFFFFFGGG...............-   ", // E after a:a/
    *b"FFFFFFFFFF...H.J..O.........$   ", // F after a:a/a
    *b"GG........GGGH.J..O.........$   ", // G after a:a/A
    *b"IIFFFFFFFFGGG...............-   ", // H after a:a/a-
    *b"IIFFFFFFFFGGGH.J..O.........$   ", // I after a:a/a-0
    *b"..KKKKKKKKLLL...............-   ", // J after a.
    *b"KKKKKKKKKK...M....O.........$   ", // K after a.a
    *b"LL........LLLM....O.........$   ", // L after a.A
    *b"NNKKKKKKKKLLL...............-   ", // M after a.a-
    *b"NNKKKKKKKKLLLM....O.........$   ", // N after a.a-0
    *b"PQ..........................-   ", // O after a@
    *b"...............R............-   ", // P after a@0
    *b"QQ.............R............-   ", // Q after a@1
    *b"ST..........................-   ", // R after a@0.
    *b"...............U............-   ", // S after a@0.0
    *b"TT.............U............-   ", // T after a@0.1
    *b"/V..........................-   ", // U after a@0.0.
    *b"VV..........................$   ", // V after a@0.0.1
    // Labels, and tokens of their class.
    *b"..XXXXXXXXYYY...............-   ", // W after %
    *b"XXXXXXXXXX...Z..............$   ", // X after a
    *b"YY........YYYZ..............$   ", // Y after A
    *b"[[XXXXXXXXYYY...............-   ", // Z after a-
    *b"[[XXXXXXXXYYYZ..............$   ", // [ after a-0
    *b"..XXXXXXXXYYY......W........-   ", // \ before one
    // Chars.
    *b"....................^.......-   ", // ] before one
    *b"____________________._`__.__-   ", // ^ after '
    *b"..................../.......-   ", // _ after 'a
    *b"......__a...........___.....-   ", // ` after '\
    *b".......................b....-   ", // a after '\u
    *b"ccccc.....cc................-   ", // b after '\u{
    *b"ddddd.....dd............_...-   ", // c after '\u{0
    *b"eeeee.....ee............_...-   ", // d after '\u{00
    *b"fffff.....ff............_...-   ", // e after '\u{000
    *b"ggggg.....gg............_...-   ", // f after '\u{0000
    *b"hhhhh.....hh............_...-   ", // g after '\u{00000
    *b"........................_...-   ", // h after '\u{000000
    // Strings in one line.
    *b".....................j......-   ", // i before one
    *b"jjjjjjjjjjjjjjjjjjjjj/kjj.jj-   ", // j after "
    *b"......jjl...........jjj.....-   ", // k after "\
    *b".......................m....-   ", // l after "\u
    *b"nnnnn.....nn................-   ", // m after "\u{
    *b"ooooo.....oo............j...-   ", // n after "\u{0
    *b"ppppp.....pp............j...-   ", // o after "\u{00
    *b"qqqqq.....qq............j...-   ", // p after "\u{000
    *b"rrrrr.....rr............j...-   ", // q after "\u{0000
    *b"sssss.....ss............j...-   ", // r after "\u{00000
    *b"........................j...-   ", // s after "\u{000000
    // Invalid tokens.
    *b"////////////////////uz//////-   ", // t before one
    *b"vvvvvvvvvvvvvvvvvvvv.v.vv.vv$   ", // u after '
    *b"wwwwwwwwwwwwwwwwwwww.w.ww.ww-   ", // v after 'a
    *b"xxxxxxxxxxxxxxxxxxxx/x.xx.xx-   ", // w after 'aa
    *b"yyyyyyyyyyyyyyyyyyyy/y.yy.yy-   ", // x after 'aaa
    *b"..................../.......-   ", // y after 'aaaa
    *b".....................{......$   ", // z after "
    *b"...................../......-   ", // { after ""
    // Whitespace and comments.
    *b".................}.......||.$   ", // | before it, and behind a whole comment
    *b".................~..........-   ", // } after /
    *b"~~~~~~~~~~~~~~~~~~~~~~~~~|~~$   ", // ~ after //
];

/// The row to which the machine goes from this one, and how many bytes the scalar takes.
#[inline(always)]
fn next_row(row: usize, c: char) -> (usize, usize)
    requires { row < 81 }
    ensures row { result.0 < 81 }
    ensures next { derivative c (rest_at row) ≡ rest_at result.0 }
    ensures width { result.1 ≡ len_utf8 c }
{
    let code = c as usize;
    if code < 128 {
        let column = COLUMNS[code] as usize - 97;
        return (ROWS[row][column] as usize - 46, 1);
    }
    (ROWS[row][OTHERS] as usize - 46, c.len_utf8())
}

/// The text may end at this row.
#[inline(always)]
fn may_end(row: usize) -> bool
    requires { row < 81 }
    ensures { result ≡ nullable (rest_at row) }
{
    ROWS[row][28] == b'$'
}

/// How many bytes the longest prefix takes, where so many are counted after the first row: none are where the
/// text may end nowhere, or only at that row.
#[inline(always)]
fn longest_of(first: usize, count: usize) -> Option<usize>
    requires { first < 81 }
    ensures { result ≡ longest_of (nullable (rest_at first)) count }
{
    if count > 0 {
        return Some(count);
    }
    if may_end(first) {
        return Some(0);
    }
    None
}

/// How many bytes the longest prefix of the text takes that has the shape of the start.
#[inline(never)]
pub fn longest_prefix(start: Start, text: &str) -> Option<usize>
    ensures { Greatest (IsPrefixOf (rest start) text.now) result }
{
    let first = start.first_row();
    let mut row = first;
    let mut longest = 0;
    let mut place = 0;
    for c in text.chars() {
        let (next, width) = next_row(row, c);
        row = next;
        if row == NOTHING {
            return longest_of(first, longest);
        }
        place += width;
        if may_end(row) {
            longest = place;
        }
    }
    longest_of(first, longest)
}
