// The machine's numbers, its answers and its instructions. What they mean is defined in specs/.
#![tactic(auto)]

// The machine's numbers: its lengths in bits, mtype, the tile sizes, the rule by which it chooses sizes, and ELEN, the widest element in
// bits. Its sealed ranges are lent beside it.
#[derive(Clone, Copy)]
pub struct Machine {
    pub rlen: u64,
    pub mlen: u64,
    pub mtype: u64,
    pub tile_m: u64,
    pub tile_k: u64,
    pub tile_n: u64,
    pub rule: u64,
    pub elen: u64,
}

// What a start, a step or a run is refused for. specs/Answers.antt gives the number, row and column of each case.
#[derive(Clone, Copy)]
pub enum Refusal {
    IllegalWord,
    IllegalType,
    BadWidth,
    TileTooLarge,
    Unwritten { row: u64, column: u64 },
    OutsideMemory,
    SealedByte,
    BadArguments,
    Overlap,
    WrongOpcode,
    LeftOutWord,
    WrongRegister,
    RowsOverlap,
    TooManySeals,
}

// What a start, a step or a run answers: that it is done, or what it is refused for.
pub type Answer = Result<(), Refusal>;

// An answer's number, and the row and column that it names; 0 where it names none.
#[derive(Clone, Copy)]
pub struct Reply {
    pub number: u64,
    pub row: u64,
    pub column: u64,
}

#[derive(Clone, Copy)]
pub enum Matrix {
    MatrixA,
    MatrixB,
    MatrixC,
}

#[derive(Clone, Copy)]
pub enum Dimension {
    DimensionM,
    DimensionK,
    DimensionN,
}

// Whether row and column change places between register and memory; of a move, whether rows or columns lie in the vector registers.
#[derive(Clone, Copy)]
pub enum Form {
    Plain,
    Transposed,
}

// The output's width, as a multiple of SEW.
#[derive(Clone, Copy)]
pub enum Factor {
    Single,
    Double,
    Quadruple,
}

#[derive(Clone, Copy)]
pub enum Sum {
    Add,
    Subtract,
    ReverseSubtract,
}

// What is wrong with a word: its opcode; that section 4.5 lists it and we don't carry it out; that its code or its fixed fields
// are in no entry; a register field out of range.
#[derive(Clone, Copy)]
pub enum Wrong {
    Opcode,
    LeftOut,
    Unlisted,
    Register,
}

// A decoded word. rd, rs1 and rs2 are slots of the scalars; md, ms1, ms2 and ms3 are registers; vd and vs1 are vector registers; a
// width is in bytes.
// Illegal is a word that is refused for what it is.
#[derive(Clone, Copy)]
pub enum Instruction {
    Illegal {
        wrong: Wrong,
    },
    SetTypeImmediate {
        rd: usize,
        immediate: u64,
    },
    SetType {
        rd: usize,
        rs1: usize,
    },
    SetTileImmediate {
        dimension: Dimension,
        rd: usize,
        immediate: u64,
    },
    SetTile {
        dimension: Dimension,
        rd: usize,
        rs1: usize,
    },
    Load {
        form: Form,
        matrix: Matrix,
        width: usize,
        md: usize,
        rs1: usize,
        rs2: usize,
    },
    Store {
        form: Form,
        matrix: Matrix,
        width: usize,
        ms3: usize,
        rs1: usize,
        rs2: usize,
    },
    Multiply {
        factor: Factor,
        md: usize,
        ms1: usize,
        ms2: usize,
    },
    Combine {
        sum: Sum,
        factor: Factor,
        md: usize,
        ms1: usize,
    },
    Scale {
        factor: Factor,
        md: usize,
        ms1: usize,
        rs2: usize,
    },
    ScaleImmediate {
        factor: Factor,
        md: usize,
        ms1: usize,
        immediate: u64,
    },
    FloatMultiply {
        md: usize,
        ms1: usize,
        ms2: usize,
    },
    MoveOut {
        form: Form,
        vd: usize,
        ms1: usize,
        rs2: usize,
    },
    MoveIn {
        form: Form,
        md: usize,
        vs1: usize,
        rs2: usize,
    },
}
