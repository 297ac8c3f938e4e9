// Lines of assembler text in the C interface.
ghost use Rattle.std.specs.Prelude.{◌≡◌};
ghost use Rattle.c_text.specs.TextCalls.{text_out, host_word_text, word_left, host_text_word};

// The line of a word.
#[unsafe(no_mangle)]
pub extern "C" fn bodlarina_word_text(word: u32, text: &mut [u8]) -> u64
    ensures { text_out result text.new ≡ host_word_text word text.old }
{
    c_text::word_text(word, text)
}

// The word of a line.
#[unsafe(no_mangle)]
pub extern "C" fn bodlarina_text_word(text: &[u8], word: &mut [u8]) -> u64
    ensures { word_left result word.new ≡ host_text_word text.now word.old }
{
    c_text::text_word(text, word)
}
