// The call for C and Rust that expands with texts, in a library of its own (document 02, 2026-07). Proved: the number
// and what is lent are those of the definition that its contract names. Assumed: nothing. It is a library of its own
// since a function with two callers is compiled into neither: beside it `terminfo_expand` would take some 130
// instructions more.
#![tactic(auto)]

ghost use Rattle.std.specs.Prelude.{◌≡◌, length};
ghost use Rattle.expansion.specs.Expanding.{expanding};
ghost use Rattle.c_arguments.specs.Given.{arguments_given};
ghost use Rattle.c_numbers.specs.Expanded.{ExpandedNumber};

// Expands a string with arguments that are numbers (kind 0) or texts (any other) into the buffer from place at on: the
// steps above the output's length, or the refusal. The lasting variables change in place. The output holds no NUL
// where no text holds one (`expanding_no_nul` of output_laws/proofs/NoNul.antt).
#[unsafe(no_mangle)]
pub extern "C" fn terminfo_expand_texts(
    string: &[u8],
    kinds: &[u8; 9],
    numbers: &[i32; 9],
    starts: &[usize; 9],
    lengths: &[usize; 9],
    texts: &[u8],
    lasting: &mut [i32; 26],
    buffer: &mut [u8],
    at: usize,
) -> u64
    ensures { ExpandedNumber (expanding string.now (arguments_given kinds.now
        numbers.now starts.now lengths.now) texts.now
        lasting.old (length buffer.old) at) lasting.old lasting.new
        buffer.old at buffer.new result }
{
    let nine = c_arguments::given(kinds, numbers, starts, lengths);
    c_numbers::expansion_number(expand::expand_texts_lent(string, nine, texts, lasting, buffer, at))
}
