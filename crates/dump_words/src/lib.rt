// The words' lines, put into a lent buffer at a place. 01, "The dump player".
#![tactic(auto)]

ghost use Rattle.std.specs.Prelude.{◌≡◌};
ghost use Rattle.dump_words.specs.Words.{words_laid, words_place};

// A line for each word. A word has 5 digits at most, so six bytes of room for each are asked for; with less, nothing is written.
#[tactic(auto, using(std::proofs::lemmas::Bool::Decides::nat_tests), unfolding(crate::specs::Words::words_laid, crate::specs::Words::words_place))]
pub fn put_words(out: &mut [u8], at: usize, words: &[u16]) -> usize
    ensures place { result ≡ words_place out.old at words.now }
    ensures text { out.new ≡ words_laid out.old at words.now }
{
    if at > out.len() || words.len() > (out.len() - at) / 6 {
        return at;
    }
    let mut place = at;
    for word in words {
        place = text_put::put_number(out, place, *word as u64, b'\n');
    }
    place
}
