// A product, by where its tiles lie in the registers; and parts of it.
ghost use Rattle.std.specs.Prelude.{◌≡◌, ◌+◌, ◌*◌, ◌^◌, ◌<◌};
ghost use Rattle.unit_arithmetic.specs.Products.{terms_from, columns_from, rows_from};

// A starts at a, B at b and C at c. A row of A or B starts pitch bytes after the one before it, a row of C 4 * pitch. C has m rows and
// n columns, and k products are added to each of its elements.
#[derive(Clone, Copy)]
pub struct Product {
    pub a: usize,
    pub b: usize,
    pub c: usize,
    pub pitch: usize,
    pub m: usize,
    pub k: usize,
    pub n: usize,
}

impl Product {
    // The k terms from term l on, of elements of width bytes.
    pub fn terms(self, l: usize, k: usize, width: usize) -> Product
        requires in_range { (self.a + l * width < 2 ^ 64) × (self.b + l * self.pitch < 2 ^ 64) }
        ensures { result ≡ terms_from self l k width }
    {
        Product {
            a: self.a + l * width,
            b: self.b + l * self.pitch,
            k,
            ..self
        }
    }

    // The n columns from column j on, of elements of width bytes in B and of wide bytes in C.
    pub fn columns(self, j: usize, n: usize, width: usize, wide: usize) -> Product
        requires in_range { (self.b + j * width < 2 ^ 64) × (self.c + j * wide < 2 ^ 64) }
        ensures { result ≡ columns_from self j n width wide }
    {
        Product {
            b: self.b + j * width,
            c: self.c + j * wide,
            n,
            ..self
        }
    }

    // The m rows from row i on.
    pub fn rows(self, i: usize, m: usize) -> Product
        requires in_range { (self.a + i * self.pitch < 2 ^ 64) × (self.c + i * (4 * self.pitch) < 2 ^ 64) }
        ensures { result ≡ rows_from self i m }
    {
        let bytes = i * self.pitch;
        Product {
            a: self.a + bytes,
            c: self.c + 4 * bytes,
            m,
            ..self
        }
    }
}
