//! Names and keywords.

pub(super) const CASES: &[(&str, &str)] = &[
    (
        "False None True and as assert async await break class continue def",
        "0 [1:1 Keyword(False) False][1:7 Keyword(None) None][1:12 Keyword(True) True][1:17 Keyword(And) and][1:21 Keyword(As) as][1:24 Keyword(Assert) assert][1:31 Keyword(Async) async][1:37 Keyword(Await) await][1:43 Keyword(Break) break][1:49 Keyword(Class) class][1:55 Keyword(Continue) continue][1:64 Keyword(Def) def];",
    ),
    (
        "del elif else except finally for from global if import in is lambda",
        "0 [1:1 Keyword(Del) del][1:5 Keyword(Elif) elif][1:10 Keyword(Else) else][1:15 Keyword(Except) except][1:22 Keyword(Finally) finally][1:30 Keyword(For) for][1:34 Keyword(From) from][1:39 Keyword(Global) global][1:46 Keyword(If) if][1:49 Keyword(Import) import][1:56 Keyword(In) in][1:59 Keyword(Is) is][1:62 Keyword(Lambda) lambda];",
    ),
    (
        "nonlocal not or pass raise return try while with yield",
        "0 [1:1 Keyword(Nonlocal) nonlocal][1:10 Keyword(Not) not][1:14 Keyword(Or) or][1:17 Keyword(Pass) pass][1:22 Keyword(Raise) raise][1:28 Keyword(Return) return][1:35 Keyword(Try) try][1:39 Keyword(While) while][1:45 Keyword(With) with][1:50 Keyword(Yield) yield];",
    ),
    (
        "false none true AND If iff classes _if if_ notin is_not print exec",
        "0 [1:1 Name(Other) false][1:7 Name(Other) none][1:12 Name(Other) true][1:17 Name(Other) AND][1:21 Name(Other) If][1:24 Name(Other) iff][1:28 Name(Other) classes][1:36 Name(Other) _if][1:40 Name(Other) if_][1:44 Name(Other) notin][1:50 Name(Other) is_not][1:57 Name(Other) print][1:63 Name(Other) exec];",
    ),
    (
        "match case type _ matches Case TYPE match_",
        "0 [1:1 Name(Match) match][1:7 Name(Case) case][1:12 Name(Type) type][1:17 Name(Other) _][1:19 Name(Other) matches][1:27 Name(Other) Case][1:32 Name(Other) TYPE][1:37 Name(Other) match_];",
    ),
    (
        "_ __ __init__ _1 x9_ aA",
        "0 [1:1 Name(Other) _][1:3 Name(Other) __][1:6 Name(Other) __init__][1:15 Name(Other) _1][1:18 Name(Other) x9_][1:22 Name(Other) aA];",
    ),
    // names of other letters; a column is a character
    (
        "é = ñandú + Ω + \u{53d8}\u{91cf} + ªº",
        "0 [1:1 Name(Other) é][1:3 Delimiter(Equal) =][1:5 Name(Other) ñandú][1:11 Arithmetic(Plus) +][1:13 Name(Other) Ω][1:15 Arithmetic(Plus) +][1:17 Name(Other) \u{53d8}\u{91cf}][1:20 Arithmetic(Plus) +][1:22 Name(Other) ªº];",
    ),
    (
        "\u{1d4b3} = \u{1d4b4} ; x",
        "0 [1:1 Name(Other) \u{1d4b3}][1:3 Delimiter(Equal) =][1:5 Name(Other) \u{1d4b4}][1:7 Delimiter(Semicolon) ;][1:9 Name(Other) x];",
    ),
    // characters that go on with a name and begin none
    (
        "x\u{b7} y\u{301} x\u{1369} x\u{663} ก\u{e33}",
        "0 [1:1 Name(Other) x\u{b7}][1:4 Name(Other) y\u{301}][1:7 Name(Other) x\u{1369}][1:10 Name(Other) x\u{663}][1:13 Name(Other) ก\u{e33}];",
    ),
    // characters that begin a name by a stated exception
    (
        "\u{2118} \u{212e}",
        "0 [1:1 Name(Other) \u{2118}][1:3 Name(Other) \u{212e}];",
    ),
    // in Normalization Form KC a word, but no keyword
    (
        "\u{ff54}\u{ff59}\u{ff50}\u{ff45} \u{1d426}\u{1d41a}\u{1d42d}\u{1d41c}\u{1d421} \u{ff43}\u{ff41}\u{ff53}\u{ff45} \u{ff49}\u{ff46} \u{fb01}nally µ",
        "0 [1:1 Name(Type) \u{ff54}\u{ff59}\u{ff50}\u{ff45}][1:6 Name(Match) \u{1d426}\u{1d41a}\u{1d42d}\u{1d41c}\u{1d421}][1:12 Name(Case) \u{ff43}\u{ff41}\u{ff53}\u{ff45}][1:17 Name(Other) \u{ff49}\u{ff46}][1:20 Name(Other) \u{fb01}nally][1:27 Name(Other) µ];",
    ),
    // a name goes on as long as it can
    (
        "ifelse not1 or_ in2 x1y2",
        "0 [1:1 Name(Other) ifelse][1:8 Name(Other) not1][1:13 Name(Other) or_][1:17 Name(Other) in2][1:21 Name(Other) x1y2];",
    ),
];
