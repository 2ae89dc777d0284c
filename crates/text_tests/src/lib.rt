// Texts at the boundaries of tokens, form and limits, and what becomes of them.
#![tactic(auto)]

#[cfg(test)]
mod tests {
    use answers::Numbered;
    use draft::{Draft, Refused};
    use std::alloc::Global;
    use std::process::Abort;
    use std::test::Fail;

    // The place that an answer tells; 0 for a text that was taken.
    fn place_told(answer: Result<(), Refused>) -> usize {
        answer.err().map_or(0, |refused| refused.place())
    }

    // A text is read into a draft made anew.
    fn answers(
        rt: &impl Abort,
        heap: Global,
        text: &[u8],
        number: u8,
        place: usize,
    ) -> Result<(), Fail> {
        let mut draft = Draft::new(heap)?;
        let answer = draft.append(text);
        assert_eq!(rt; answer.number(), number);
        assert_eq!(rt; place_told(answer), place);
        Ok(())
    }

    #[test]
    fn form(rt: HostRuntime) -> Result<(), Fail> {
        answers(&rt, rt.alloc(), b"", 3, 0)?;
        answers(&rt, rt.alloc(), b"A: \"x\"[0, 1]", 3, 12)?;
        answers(&rt, rt.alloc(), b"A: \"x\"[0, 1]   ", 3, 15)?;
        answers(&rt, rt.alloc(), b"A: \"x\"[0, 1] ;", 0, 0)?;
        answers(
            &rt,
            rt.alloc(),
            b"A: \"x\"[0, 1] A[1, EOI] / guard(EOI = 0) ;",
            0,
            0,
        )?;
        answers(&rt, rt.alloc(), b"EOI: guard(1) ;", 3, 0)?;
        answers(&rt, rt.alloc(), b"A: guard(1a) ;", 3, 10)?;
        answers(&rt, rt.alloc(), b"A: guard(1 = 1 = 1) ;", 3, 15)?;
        answers(&rt, rt.alloc(), b"A: {a = b.c} {a = b.} ;", 3, 20)
    }

    #[test]
    fn tokens(rt: HostRuntime) -> Result<(), Fail> {
        answers(&rt, rt.alloc(), b"; @", 2, 2)?;
        answers(&rt, rt.alloc(), b"A: \"ab\\q\"[0, 1] ;", 2, 3)?;
        answers(&rt, rt.alloc(), b"A: \"abc", 2, 3)?;
        answers(&rt, rt.alloc(), b"A: \"\"[0, 1] ;", 2, 3)?;
        answers(&rt, rt.alloc(), b"A: \"0123456789abcdef\"[0, 1] ;", 0, 0)?;
        answers(&rt, rt.alloc(), b"A: \"0123456789abcdefg\"[0, 1] ;", 2, 3)?;
        answers(&rt, rt.alloc(), b"A: \"\\xaF\\xFa\"[0, 1] ;", 0, 0)?;
        answers(&rt, rt.alloc(), b"A: \"\\XaF\"[0, 1] ;", 2, 3)?;
        answers(
            &rt,
            rt.alloc(),
            b"abcdefghijklmnopqrstuvwx: guard(1) ;",
            0,
            0,
        )?;
        answers(
            &rt,
            rt.alloc(),
            b" abcdefghijklmnopqrstuvwxy: guard(1) ;",
            2,
            1,
        )
    }

    #[test]
    fn numbers_and_marks(rt: HostRuntime) -> Result<(), Fail> {
        answers(&rt, rt.alloc(), b"A: guard(18446744073709551615) ;", 0, 0)?;
        answers(
            &rt,
            rt.alloc(),
            b"A: guard(00018446744073709551615) ;",
            0,
            0,
        )?;
        answers(&rt, rt.alloc(), b"A: guard(18446744073709551616) ;", 2, 9)?;
        answers(&rt, rt.alloc(), b"A: guard(1<<2<3) ;", 0, 0)?;
        answers(&rt, rt.alloc(), b"A: guard(1<<<2) ;", 3, 12)?;
        answers(&rt, rt.alloc(), b"A: guard(1)\r;", 2, 11)
    }

    #[test]
    fn brackets(rt: HostRuntime) -> Result<(), Fail> {
        answers(
            &rt,
            rt.alloc(),
            b"A: guard(((((((((((((((((1)))))))))))))))))",
            3,
            43,
        )?;
        answers(
            &rt,
            rt.alloc(),
            b"A: guard(((((((((((((((((1))))))))))))))))) ;",
            0,
            0,
        )?;
        answers(
            &rt,
            rt.alloc(),
            b"A: guard((((((((((((((((((1)))))))))))))))))) ;",
            4,
            25,
        )?;
        answers(&rt, rt.alloc(), b"A: guard((((((((((((((((((((", 4, 25)
    }

    #[test]
    fn gif(rt: HostRuntime) -> Result<(), Fail> {
        answers(
            &rt,
            rt.alloc(),
            b"Gif: Head[0, 13] Map[13, 13 + Head.map] Body[13 + Head.map, EOI] ;\nHead: Sig[0, 6] u16le[6, 8] {w = u16le.val} u16le[8, 10] {h = u16le.val} Pack[10, 11] {map = Pack.map} ;\nSig: \"GIF87a\"[0, 6] / \"GIF89a\"[0, 6] ;\nPack: u8[0, 1] guard(127 < u8.val) {map = 3 * (2 << (u8.val % 8))} / u8[0, 1] {map = 0} ;\nMap: raw[0, EOI] / guard(EOI = 0) ;\nBody: \"\\x3B\"[0, 1] / Block[0, EOI] Body[Block.end, EOI] ;",
            0,
            0,
        )
    }

    // 32 rules, and one more, over two texts.
    #[test]
    fn rules(rt: HostRuntime) -> Result<(), Fail> {
        let mut draft = Draft::new(rt.alloc())?;
        for _ in 0..31 {
            let answer = draft.append(b"A: guard(1) ;");
            assert_eq!(rt; answer.number(), 0);
        }
        let answer = draft.append(b"A: guard(1) ; B: guard(1) ;");
        assert_eq!(rt; answer.number(), 5);
        assert_eq!(rt; place_told(answer), 0);
        let answer = draft.append(b"A: guard(1) ;");
        assert_eq!(rt; answer.number(), 0);
        let answer = draft.append(b"A: guard(1) ;");
        assert_eq!(rt; answer.number(), 5);
        Ok(())
    }
}
