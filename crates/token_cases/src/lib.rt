// Many small texts through the lexer. All of this crate is tests.
#![tactic(auto)]

#[cfg(test)]
mod tests {
    use tokens::count::count_tokens;
    use tokens::integer::value_of;
    use tokens::lexer::{Reason, Tokens, next};
    use tokens::token::{Keyword, Token};

    // How many tokens a text has, if it lexes.
    fn total(text: &[u8]) -> Option<usize> {
        let c = count_tokens(text).ok()?;
        let kinds = [c.marks, c.keywords, c.lowers, c.uppers, c.integers];
        Some(kinds.iter().fold(0, |sum, n| sum.saturating_add(*n)))
    }

    // Where and why a text does not lex.
    fn fault(text: &[u8]) -> Option<(usize, Reason)> {
        let e = count_tokens(text).err()?;
        Some((e.place, e.reason))
    }

    // The next token's place and end.
    fn span(text: &[u8], from: usize) -> Option<(usize, usize)> {
        let found = next(text, from).ok()??;
        Some((found.place, found.end))
    }

    fn first_keyword(text: &[u8]) -> Option<Keyword> {
        match next(text, 0).ok()??.token {
            Token::Keyword(k) => Some(k),
            _ => None,
        }
    }

    // How many answers the iterator over the tokens gives: each token, and the first fault.
    fn answers(text: &[u8]) -> usize {
        Tokens::new(text).count()
    }

    #[test]
    fn empty_and_blank(rt: HostRuntime) {
        assert_eq!(rt; total(b""), Some(0));
        assert_eq!(rt; total(b" \t\r\n"), Some(0));
        assert_eq!(rt; total(&[b' '; 4000]), Some(0));
        assert_eq!(rt; total(&[b'('; 4001]), Some(4001));
        assert_eq!(rt; fault(b"\x0b"), Some((0, Reason::Byte)));
    }

    #[test]
    fn marks_and_bytes_that_begin_none(rt: HostRuntime) {
        assert_eq!(rt; total(b"():=,.->[@@]"), Some(9));
        assert_eq!(rt; fault(b"-"), Some((0, Reason::Byte)));
        assert_eq!(rt; fault(b" ["), Some((1, Reason::Byte)));
        assert_eq!(rt; fault(b"[@"), Some((0, Reason::Byte)));
        assert_eq!(rt; fault(b"[@@@"), Some((3, Reason::Byte)));
        assert_eq!(rt; fault(b"- >"), Some((0, Reason::Byte)));
        assert_eq!(rt; fault(b"x _"), Some((2, Reason::Byte)));
        assert_eq!(rt; fault(b"ab\x80"), Some((2, Reason::Byte)));
        assert_eq!(rt; fault(b"\xff"), Some((0, Reason::Byte)));
        assert_eq!(rt; fault(b"\x00"), Some((0, Reason::Byte)));
    }

    #[test]
    fn limits_of_runs(rt: HostRuntime) {
        assert_eq!(rt; total(b"abcdefghijklmnop"), Some(1));
        assert_eq!(rt; fault(b"  abcdefghijklmnopq"), Some((2, Reason::LongName)));
        assert_eq!(rt; total(b"A_34567890123456 x"), Some(2));
        assert_eq!(rt; total(b"999999999"), Some(1));
        assert_eq!(rt; fault(b"x 1000000000"), Some((2, Reason::LongInteger)));
        assert_eq!(rt; total(b"12let"), Some(2));
        assert_eq!(rt; total(b"add12"), Some(1));
        assert_eq!(rt; fault(b"end -"), Some((4, Reason::Byte)));
    }

    #[test]
    fn keywords_and_names(rt: HostRuntime) {
        assert_eq!(rt; first_keyword(b"module"), Some(Keyword::Module));
        assert_eq!(rt; first_keyword(b" rank("), Some(Keyword::Rank));
        assert_eq!(rt; first_keyword(b"modules"), None);
        assert_eq!(rt; first_keyword(b"Module"), None);
        assert_eq!(rt; first_keyword(b"int"), None);
    }

    #[test]
    fn places(rt: HostRuntime) {
        assert_eq!(rt; span(b"  ab c", 0), Some((2, 4)));
        assert_eq!(rt; span(b"  ab c", 3), Some((3, 4)));
        assert_eq!(rt; span(b"  ab c", 4), Some((5, 6)));
        assert_eq!(rt; span(b"  ab c", 6), None);
        assert_eq!(rt; span(b"  ab c", 99), None);
        assert_eq!(rt; span(b"[@@ rank", 0), Some((0, 3)));
    }

    #[test]
    fn answers_of_the_iterator(rt: HostRuntime) {
        assert_eq!(rt; answers(b""), 0);
        assert_eq!(rt; answers(b" x = 1 "), 3);
        assert_eq!(rt; answers(b" x - 1 y"), 2);
        assert_eq!(rt; answers(b"[@ rank"), 1);
    }

    #[test]
    fn values(rt: HostRuntime) {
        assert_eq!(rt; value_of(b"0"), Some(0));
        assert_eq!(rt; value_of(b"000000255"), Some(255));
        assert_eq!(rt; value_of(b"999999999"), Some(999_999_999));
        assert_eq!(rt; value_of(b"1000000000"), None);
        assert_eq!(rt; value_of(b""), None);
        assert_eq!(rt; value_of(b"1a"), None);
    }
}
