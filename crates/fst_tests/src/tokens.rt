use fst_text::Kind::{Ident, Number};
use fst_text::{Kind, Mark, Scanner, Token, Word};
use std::test::Fail;

type Row = (&'static [u8], &'static [(Kind, u32, u32)], Option<u32>);

// A text, its tokens with their spans, and the offset of its fault.
static ROWS: [Row; 20] = [
    (b"", &[], None),
    (b" \t\r\n", &[], None),
    (
        b"fun f",
        &[(Kind::Word(Word::Fun), 0, 3), (Ident, 4, 5)],
        None,
    ),
    (
        b"funny PURE pure forall",
        &[
            (Ident, 0, 5),
            (Kind::Word(Word::PureEffect), 6, 10),
            (Ident, 11, 15),
            (Kind::Word(Word::Held), 16, 22),
        ],
        None,
    ),
    (
        b"_ _a a_1",
        &[(Ident, 0, 1), (Ident, 2, 4), (Ident, 5, 8)],
        None,
    ),
    (b"007a", &[(Number, 0, 3), (Ident, 3, 4)], None),
    (
        b"a<=b",
        &[
            (Ident, 0, 1),
            (Kind::Mark(Mark::LessEqual), 1, 3),
            (Ident, 3, 4),
        ],
        None,
    ),
    (
        b"<-1",
        &[
            (Kind::Mark(Mark::Less), 0, 1),
            (Kind::Mark(Mark::Minus), 1, 2),
            (Number, 2, 3),
        ],
        None,
    ),
    (
        b"==>==",
        &[
            (Kind::Mark(Mark::Implies), 0, 3),
            (Kind::Mark(Mark::Equal), 3, 4),
            (Kind::Mark(Mark::Equal), 4, 5),
        ],
        None,
    ),
    (
        b":::",
        &[
            (Kind::Mark(Mark::ColonColon), 0, 2),
            (Kind::Mark(Mark::Colon), 2, 3),
        ],
        None,
    ),
    (
        b"|||->-",
        &[
            (Kind::Mark(Mark::BarBar), 0, 2),
            (Kind::Mark(Mark::Bar), 2, 3),
            (Kind::Mark(Mark::Arrow), 3, 5),
            (Kind::Mark(Mark::Minus), 5, 6),
        ],
        None,
    ),
    (b"!=!", &[(Kind::Mark(Mark::NotEqual), 0, 2)], Some(2)),
    (b"&&&", &[(Kind::Mark(Mark::AmpAmp), 0, 2)], Some(2)),
    (b"1//2\n3", &[(Number, 0, 1), (Number, 5, 6)], None),
    (b"// a // b", &[], None),
    (
        b"/ /",
        &[
            (Kind::Mark(Mark::Slash), 0, 1),
            (Kind::Mark(Mark::Slash), 2, 3),
        ],
        None,
    ),
    (b"x // \xFF\ny", &[(Ident, 0, 1)], Some(5)),
    (b"\xC3\xA9t\xC3\xA9 \xE2\x82\xAC", &[(Ident, 0, 5)], Some(6)),
    (b"a\xC0\xAF", &[(Ident, 0, 1)], Some(1)),
    (b"1 \xE2\x82", &[(Number, 0, 1)], Some(2)),
];

#[test]
fn gives_the_tokens_and_the_fault(rt: HostRuntime) -> Result<(), Fail> {
    for (text, tokens, fault) in &ROWS {
        let mut scanner = Scanner::new(text);
        for (kind, from, to) in *tokens {
            let token = Token {
                kind: *kind,
                from: *from,
                to: *to,
            };
            assert_eq!(rt; scanner.next(), Ok(Some(token)), "in {text:?}");
        }
        let end = fault.map_or(Ok(None), Err);
        assert_eq!(rt; scanner.next(), end, "behind {text:?}");
        assert_eq!(rt; scanner.next(), end, "again behind {text:?}");
    }
    Ok(())
}
