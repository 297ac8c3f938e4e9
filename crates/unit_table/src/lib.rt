// The decode table: 1,024 entries. A block for each value of bits 31..28 of a word, in it a row for each value of bits 27..25, and in
// that an entry for each value of bits 14..12, from 000 to 111: the number of the entry of section 4.5 that has these bits (with 100
// added for a transposed load or store, whose numbers are printed twice), or of a move of section 6.1.7 (with 200 added), or 0. A
// setting with an immediate has data in bits 27..25, so it fills the last column of its block.
// An entry is a number and no variant of an enum: it is the listing's own, which the definition `numbers` and its theorem name.
#![tactic(auto)]

ghost use Rattle.std.specs.Prelude.{◌≡◌, ◌<◌, get_or, []};
ghost use Rattle.unit_table.specs.Table.{numbers};

// 111: msettypei, with data in bits 27..25
const CODES_0000: [[u8; 8]; 8] = [
    [17, 18, 19, 20, 0, 229, 33, 1], // 000: mlce8.m to mlce64.m, mmvcr.v.m, mma.mm
    [29, 30, 31, 32, 0, 230, 34, 1], // 001: msce8.m to msce64.m, mmvcr.m.v, mfma.mm
    [9, 10, 11, 12, 0, 0, 35, 1], // 010: mlae8.m to mlae64.m, mwma.mm
    [21, 22, 23, 24, 0, 0, 36, 1], // 011: msae8.m to msae64.m, mfwma.mm
    [13, 14, 15, 16, 0, 0, 37, 1], // 100: mlbe8.m to mlbe64.m, mqma.mm
    [25, 26, 27, 28, 0, 0, 0, 1], // 101: msbe8.m to msbe64.m
    [0, 0, 0, 0, 0, 0, 0, 1], // 110
    [0, 0, 0, 0, 0, 0, 0, 1], // 111
];

// 111: msettype
const CODES_0001: [[u8; 8]; 8] = [
    [117, 118, 119, 120, 0, 235, 38, 2], // 000: mlcte8.m to mlcte64.m, mmvcc.v.m, maddc.mm
    [129, 130, 131, 132, 0, 236, 39, 0], // 001: mscte8.m to mscte64.m, mmvcc.m.v, mfaddc.mm
    [109, 110, 111, 112, 0, 0, 40, 0], // 010: mlate8.m to mlate64.m, mwaddc.mm
    [121, 122, 123, 124, 0, 0, 41, 0], // 011: msate8.m to msate64.m, mfwaddc.mm
    [113, 114, 115, 116, 0, 0, 42, 0], // 100: mlbte8.m to mlbte64.m, mqaddc.mm
    [125, 126, 127, 128, 0, 0, 0, 0], // 101: msbte8.m to msbte64.m
    [0, 0, 0, 0, 0, 0, 43, 0], // 110: msubc.mm
    [0, 0, 0, 0, 0, 0, 44, 0], // 111: mfsubc.mm
];

// 111: msettilemi, with data in bits 27..25
const CODES_0010: [[u8; 8]; 8] = [
    [0, 0, 0, 0, 0, 0, 45, 3], // 000: mwsubc.mm
    [0, 0, 0, 0, 0, 0, 46, 3], // 001: mfwsubc.mm
    [0, 0, 0, 0, 0, 0, 47, 3], // 010: mqsubc.mm
    [0, 0, 0, 0, 0, 0, 0, 3], // 011
    [0, 0, 0, 0, 0, 0, 48, 3], // 100: mrsubc.mm
    [0, 0, 0, 0, 0, 0, 49, 3], // 101: mfrsubc.mm
    [0, 0, 0, 0, 0, 0, 50, 3], // 110: mwrsubc.mm
    [0, 0, 0, 0, 0, 0, 51, 3], // 111: mfwrsubc.mm
];

// 111: msettilem
const CODES_0011: [[u8; 8]; 8] = [
    [0, 0, 0, 0, 0, 0, 52, 4], // 000: mqrsubc.mm
    [0, 0, 0, 0, 0, 0, 0, 0], // 001
    [0, 0, 0, 0, 0, 0, 53, 0], // 010: memulc.mx
    [0, 0, 0, 0, 0, 0, 54, 0], // 011: mfemulc.mf
    [0, 0, 0, 0, 0, 0, 55, 0], // 100: mwemulc.mx
    [0, 0, 0, 0, 0, 0, 56, 0], // 101: mfwemulc.mf
    [0, 0, 0, 0, 0, 0, 57, 0], // 110: mqemulc.mx
    [0, 0, 0, 0, 0, 0, 0, 0], // 111
];

// 111: msettileki, with data in bits 27..25
const CODES_0100: [[u8; 8]; 8] = [
    [0, 0, 0, 0, 0, 0, 58, 5], // 000: memulc.mi
    [0, 0, 0, 0, 0, 0, 0, 5], // 001
    [0, 0, 0, 0, 0, 0, 59, 5], // 010: mwemulc.mi
    [0, 0, 0, 0, 0, 0, 0, 5], // 011
    [0, 0, 0, 0, 0, 0, 60, 5], // 100: mqemulc.mi
    [0, 0, 0, 0, 0, 0, 0, 5], // 101
    [0, 0, 0, 0, 0, 0, 0, 5], // 110
    [0, 0, 0, 0, 0, 0, 0, 5], // 111
];

// 111: msettilek
const CODES_0101: [[u8; 8]; 8] = [
    [0, 0, 0, 0, 0, 0, 0, 6], // 000
    [0, 0, 0, 0, 0, 0, 0, 0], // 001
    [0, 0, 0, 0, 0, 0, 0, 0], // 010
    [0, 0, 0, 0, 0, 0, 0, 0], // 011
    [0, 0, 0, 0, 0, 0, 0, 0], // 100
    [0, 0, 0, 0, 0, 0, 0, 0], // 101
    [0, 0, 0, 0, 0, 0, 0, 0], // 110
    [0, 0, 0, 0, 0, 0, 0, 0], // 111
];

// 111: msettileni, with data in bits 27..25
const CODES_0110: [[u8; 8]; 8] = [
    [0, 0, 0, 0, 0, 0, 62, 7], // 000: mfwcvtc.fw.f.m
    [0, 0, 0, 0, 0, 0, 61, 7], // 001: mfncvtc.f.fw.m
    [0, 0, 0, 0, 0, 0, 0, 7], // 010
    [0, 0, 0, 0, 0, 0, 0, 7], // 011
    [0, 0, 0, 0, 0, 0, 64, 7], // 100: mfcvtc.x.f.m
    [0, 0, 0, 0, 0, 0, 63, 7], // 101: mfcvtc.f.x.m
    [0, 0, 0, 0, 0, 0, 66, 7], // 110: mfwcvtc.xw.f.m
    [0, 0, 0, 0, 0, 0, 65, 7], // 111: mfncvtc.f.xw.m
];

// 111: msettilen
const CODES_0111: [[u8; 8]; 8] = [
    [0, 0, 0, 0, 0, 0, 68, 8], // 000: mfwcvtc.xq.f.m
    [0, 0, 0, 0, 0, 0, 67, 0], // 001: mfncvtc.f.xq.m
    [0, 0, 0, 0, 0, 0, 70, 0], // 010: mfncvtc.x.fw.m
    [0, 0, 0, 0, 0, 0, 69, 0], // 011: mfwcvtc.fw.x.m
    [0, 0, 0, 0, 0, 0, 72, 0], // 100: mfcvtc.xw.fw.m
    [0, 0, 0, 0, 0, 0, 71, 0], // 101: mfcvtc.fw.xw.m
    [0, 0, 0, 0, 0, 0, 74, 0], // 110: mfwcvtc.xq.fw.m
    [0, 0, 0, 0, 0, 0, 73, 0], // 111: mfncvtc.fw.xq.m
];

// No entry.
const CODES_NONE: [[u8; 8]; 8] = [[0; 8]; 8];

static CODES: [[[u8; 8]; 8]; 16] = [
    CODES_0000, CODES_0001, CODES_0010, CODES_0011, CODES_0100, CODES_0101, CODES_0110, CODES_0111,
    CODES_NONE, CODES_NONE, CODES_NONE, CODES_NONE, CODES_NONE, CODES_NONE, CODES_NONE, CODES_NONE,
];

// The entry of a word with these bits 31..28, 27..25 and 14..12.
pub fn entry(high: u32, middle: usize, form: usize) -> u8
    requires high_bound { high < 16 }
    requires middle_bound { middle < 8 }
    requires form_bound { form < 8 }
    ensures { result ≡ get_or (get_or (get_or numbers high []) middle []) form 0 }
{
    CODES[high as usize][middle][form]
}
