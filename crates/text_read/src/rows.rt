// The rows of the listing: what each fixes of a word, and its text.
ghost use Rattle.std.specs.Prelude.{◌≡◌, ◌<◌};
ghost use Rattle.text_assembly.specs.Bytes.{bytes};
ghost use Rattle.text_read.specs.Table.{IsTable, base_of, row_at};

// In a text X is the number of a scalar or vector register, T of a tile register, A of an accumulator, I the immediate of a setting, S the
// signed one.
#[derive(Clone, Copy)]
pub struct Row {
    pub bits: u32,
    pub text: &'static [u8],
}

// Row k of a table of all. No reference stands in the table: the library has no data that is written when it is loaded.
fn row_in(rows: &'static [(u32, usize, [u8; 25])], k: usize) -> Row
    requires table { IsTable rows.now }
    requires k_bound { k < 79 }
    ensures bits { result.bits ≡ base_of (row_at k) }
    ensures text { result.text.now ≡ bytes (row_at k).text }
{
    let row = &rows[k];
    Row {
        bits: row.0,
        text: &row.2[..row.1],
    }
}

// Row k.
pub fn row_at(k: usize) -> Row
    requires { k < 79 }
    ensures bits { result.bits ≡ base_of (row_at k) }
    ensures text { result.text.now ≡ bytes (row_at k).text }
{
    row_in(&ROWS, k)
}

// A row, by six letters of a line: that of its name, if it has a row's name.
pub fn guess(line: &[u8]) -> usize
    ensures { result < 79 }
{
    if line.len() < 10 {
        return 0;
    }
    let first = 67 * u32::from(line[1]) + 74 * u32::from(line[2]) + 9 * u32::from(line[4]);
    let last = 19 * u32::from(line[5]) + 110 * u32::from(line[8]) + 41 * u32::from(line[9]);
    let k = BY_LETTERS[((first + last) % 256) as usize] as usize;
    if k < 79 { k } else { 0 }
}

// The text stands at the front of its bytes.
static ROWS: [(u32, usize, [u8; 25]); 79] = [
    (0x0000_7077, 15, *b"msettypei xX, I\0\0\0\0\0\0\0\0\0\0"),
    (0x1000_7077, 15, *b"msettype xX, xX\0\0\0\0\0\0\0\0\0\0"),
    (0x2000_7077, 16, *b"msettilemi xX, I\0\0\0\0\0\0\0\0\0"),
    (0x3000_7077, 16, *b"msettilem xX, xX\0\0\0\0\0\0\0\0\0"),
    (0x4000_7077, 16, *b"msettileki xX, I\0\0\0\0\0\0\0\0\0"),
    (0x5000_7077, 16, *b"msettilek xX, xX\0\0\0\0\0\0\0\0\0"),
    (0x6000_7077, 16, *b"msettileni xX, I\0\0\0\0\0\0\0\0\0"),
    (0x7000_7077, 16, *b"msettilen xX, xX\0\0\0\0\0\0\0\0\0"),
    (0x0400_0077, 21, *b"mlae8.m trT, (xX), xX\0\0\0\0"),
    (0x0400_1077, 22, *b"mlae16.m trT, (xX), xX\0\0\0"),
    (0x0400_2077, 22, *b"mlae32.m trT, (xX), xX\0\0\0"),
    (0x0400_3077, 22, *b"mlae64.m trT, (xX), xX\0\0\0"),
    (0x0800_0077, 21, *b"mlbe8.m trT, (xX), xX\0\0\0\0"),
    (0x0800_1077, 22, *b"mlbe16.m trT, (xX), xX\0\0\0"),
    (0x0800_2077, 22, *b"mlbe32.m trT, (xX), xX\0\0\0"),
    (0x0800_3077, 22, *b"mlbe64.m trT, (xX), xX\0\0\0"),
    (0x0000_0077, 22, *b"mlce8.m accA, (xX), xX\0\0\0"),
    (0x0000_1077, 23, *b"mlce16.m accA, (xX), xX\0\0"),
    (0x0000_2077, 23, *b"mlce32.m accA, (xX), xX\0\0"),
    (0x0000_3077, 23, *b"mlce64.m accA, (xX), xX\0\0"),
    (0x0600_0077, 21, *b"msae8.m trT, (xX), xX\0\0\0\0"),
    (0x0600_1077, 22, *b"msae16.m trT, (xX), xX\0\0\0"),
    (0x0600_2077, 22, *b"msae32.m trT, (xX), xX\0\0\0"),
    (0x0600_3077, 22, *b"msae64.m trT, (xX), xX\0\0\0"),
    (0x0a00_0077, 21, *b"msbe8.m trT, (xX), xX\0\0\0\0"),
    (0x0a00_1077, 22, *b"msbe16.m trT, (xX), xX\0\0\0"),
    (0x0a00_2077, 22, *b"msbe32.m trT, (xX), xX\0\0\0"),
    (0x0a00_3077, 22, *b"msbe64.m trT, (xX), xX\0\0\0"),
    (0x0200_0077, 22, *b"msce8.m accA, (xX), xX\0\0\0"),
    (0x0200_1077, 23, *b"msce16.m accA, (xX), xX\0\0"),
    (0x0200_2077, 23, *b"msce32.m accA, (xX), xX\0\0"),
    (0x0200_3077, 23, *b"msce64.m accA, (xX), xX\0\0"),
    (0x1400_0077, 22, *b"mlate8.m trT, (xX), xX\0\0\0"),
    (0x1400_1077, 23, *b"mlate16.m trT, (xX), xX\0\0"),
    (0x1400_2077, 23, *b"mlate32.m trT, (xX), xX\0\0"),
    (0x1400_3077, 23, *b"mlate64.m trT, (xX), xX\0\0"),
    (0x1800_0077, 22, *b"mlbte8.m trT, (xX), xX\0\0\0"),
    (0x1800_1077, 23, *b"mlbte16.m trT, (xX), xX\0\0"),
    (0x1800_2077, 23, *b"mlbte32.m trT, (xX), xX\0\0"),
    (0x1800_3077, 23, *b"mlbte64.m trT, (xX), xX\0\0"),
    (0x1000_0077, 23, *b"mlcte8.m accA, (xX), xX\0\0"),
    (0x1000_1077, 24, *b"mlcte16.m accA, (xX), xX\0"),
    (0x1000_2077, 24, *b"mlcte32.m accA, (xX), xX\0"),
    (0x1000_3077, 24, *b"mlcte64.m accA, (xX), xX\0"),
    (0x1600_0077, 22, *b"msate8.m trT, (xX), xX\0\0\0"),
    (0x1600_1077, 23, *b"msate16.m trT, (xX), xX\0\0"),
    (0x1600_2077, 23, *b"msate32.m trT, (xX), xX\0\0"),
    (0x1600_3077, 23, *b"msate64.m trT, (xX), xX\0\0"),
    (0x1a00_0077, 22, *b"msbte8.m trT, (xX), xX\0\0\0"),
    (0x1a00_1077, 23, *b"msbte16.m trT, (xX), xX\0\0"),
    (0x1a00_2077, 23, *b"msbte32.m trT, (xX), xX\0\0"),
    (0x1a00_3077, 23, *b"msbte64.m trT, (xX), xX\0\0"),
    (0x1200_0077, 23, *b"mscte8.m accA, (xX), xX\0\0"),
    (0x1200_1077, 24, *b"mscte16.m accA, (xX), xX\0"),
    (0x1200_2077, 24, *b"mscte32.m accA, (xX), xX\0"),
    (0x1200_3077, 24, *b"mscte64.m accA, (xX), xX\0"),
    (0x0000_5077, 22, *b"mmvcr.v.m vX, accA, xX\0\0\0"),
    (0x0200_5077, 22, *b"mmvcr.m.v accA, vX, xX\0\0\0"),
    (0x1000_5077, 22, *b"mmvcc.v.m vX, accA, xX\0\0\0"),
    (0x1200_5077, 22, *b"mmvcc.m.v accA, vX, xX\0\0\0"),
    (0x0000_6077, 21, *b"mma.mm accA, trT, trT\0\0\0\0"),
    (0x0200_6077, 22, *b"mfma.mm accA, trT, trT\0\0\0"),
    (0x0400_6077, 22, *b"mwma.mm accA, trT, trT\0\0\0"),
    (0x0800_6077, 22, *b"mqma.mm accA, trT, trT\0\0\0"),
    (0x1000_6077, 19, *b"maddc.mm accA, accA\0\0\0\0\0\0"),
    (0x1400_6077, 20, *b"mwaddc.mm accA, accA\0\0\0\0\0"),
    (0x1800_6077, 20, *b"mqaddc.mm accA, accA\0\0\0\0\0"),
    (0x1c00_6077, 19, *b"msubc.mm accA, accA\0\0\0\0\0\0"),
    (0x2000_6077, 20, *b"mwsubc.mm accA, accA\0\0\0\0\0"),
    (0x2400_6077, 20, *b"mqsubc.mm accA, accA\0\0\0\0\0"),
    (0x2800_6077, 20, *b"mrsubc.mm accA, accA\0\0\0\0\0"),
    (0x2c00_6077, 21, *b"mwrsubc.mm accA, accA\0\0\0\0"),
    (0x3000_6077, 21, *b"mqrsubc.mm accA, accA\0\0\0\0"),
    (0x3400_6077, 24, *b"memulc.mx accA, accA, xX\0"),
    (0x3800_6077, 25, *b"mwemulc.mx accA, accA, xX"),
    (0x3c00_6077, 25, *b"mqemulc.mx accA, accA, xX"),
    (0x4000_6077, 23, *b"memulc.mi accA, accA, S\0\0"),
    (0x4400_6077, 24, *b"mwemulc.mi accA, accA, S\0"),
    (0x4800_6077, 24, *b"mqemulc.mi accA, accA, S\0"),
];

// At the sum of letters that `guess` takes, the place of the row with such a name.
static BY_LETTERS: [u8; 256] = [
    0, 0, 65, 54, 0, 56, 0, 0, 41, 0, 0, 0, 0, 0, 0, 0, 0, 0, 0, 0, 12, 0, 0, 0, 0, 67, 0, 0, 0,
    39, 0, 77, 3, 0, 0, 10, 68, 0, 0, 0, 0, 0, 0, 0, 44, 0, 42, 0, 0, 0, 21, 0, 0, 72, 0, 0, 0, 23,
    0, 0, 55, 0, 0, 6, 0, 0, 26, 0, 5, 0, 0, 0, 0, 45, 0, 0, 0, 0, 0, 0, 0, 0, 1, 63, 76, 0, 0, 32,
    0, 0, 0, 0, 59, 9, 0, 0, 0, 0, 0, 0, 11, 0, 0, 43, 0, 0, 0, 0, 0, 14, 0, 46, 66, 0, 61, 0, 33,
    0, 48, 0, 0, 64, 0, 0, 25, 0, 58, 0, 0, 30, 0, 27, 0, 0, 74, 0, 0, 0, 0, 0, 0, 78, 7, 0, 0, 0,
    69, 49, 0, 0, 0, 0, 0, 0, 34, 0, 0, 0, 0, 20, 0, 36, 28, 0, 0, 0, 0, 13, 47, 0, 0, 0, 18, 0,
    15, 0, 0, 0, 0, 0, 0, 52, 0, 0, 0, 50, 0, 29, 0, 0, 37, 0, 0, 0, 31, 0, 0, 0, 73, 71, 0, 0, 8,
    0, 0, 16, 0, 0, 0, 2, 0, 35, 0, 70, 0, 0, 0, 0, 0, 0, 0, 53, 0, 0, 40, 0, 60, 57, 38, 62, 17,
    0, 0, 24, 0, 0, 0, 19, 0, 0, 0, 0, 51, 0, 75, 4, 0, 0, 22, 0, 0, 0, 0, 0, 0, 0,
];
