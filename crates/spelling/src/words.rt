// The words of a line.
ghost use Rattle.std.specs.Prelude.{◌≡◌};
ghost use Rattle.std.specs.Str.Iter.{split_whitespace_rest};
ghost use Rattle.spelling.specs.Words.{CutsInto, OfWords, uncommented};

use std::str::SplitWhitespace;

// What stands before a comment.
fn uncommented(line: &str) -> &str
    ensures value { result.now ≡ uncommented line.now }
{
    match line.split_once('#') {
        Some((text, _)) => text,
        None => line,
    }
}

// The words of a line, up to a comment, each found when it is asked for: who stops at a bad word looks at none behind it, and a
// line of many words takes no memory for them.
pub fn words_in(line: &str) -> SplitWhitespace<'_>
    ensures value { OfWords result (CutsInto (uncommented line.now)) }
    ensures rest { split_whitespace_rest result ≡ uncommented line.now }
{
    uncommented(line).split_whitespace()
}

#[cfg(test)]
mod tests {
    use super::*;
    use std::test::Fail;

    #[test]
    fn comment_is_no_word_of_a_line(rt: HostRuntime) -> Result<(), Fail> {
        let words = words_in(" copy  plain # into image").collect::<Vec<&str>>(rt.alloc())?;
        assert_eq!(rt; words.as_slice(), ["copy", "plain"].as_slice());
        Ok(())
    }
}
