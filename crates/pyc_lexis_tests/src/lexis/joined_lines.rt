//! Lines that a backslash joins, and the ends of lines.

pub(super) const CASES: &[(&str, &str)] = &[
    (
        "if 1900 < year < 2100 and 1 <= month <= 12 \\\n   and 1 <= day <= 31 and 0 <= hour < 24 \\\n   and 0 <= minute < 60 and 0 <= second < 60:   # Looks like a valid date\n        return 1\n",
        "0 [1:1 Keyword(If) if][1:4 Number(Integer) 1900][1:9 Comparison(Less) <][1:11 Name(Other) year][1:16 Comparison(Less) <][1:18 Number(Integer) 2100][1:23 Keyword(And) and][1:27 Number(Integer) 1][1:29 Comparison(LessEqual) <=][1:32 Name(Other) month][1:38 Comparison(LessEqual) <=][1:41 Number(Integer) 12][2:4 Keyword(And) and][2:8 Number(Integer) 1][2:10 Comparison(LessEqual) <=][2:13 Name(Other) day][2:17 Comparison(LessEqual) <=][2:20 Number(Integer) 31][2:23 Keyword(And) and][2:27 Number(Integer) 0][2:29 Comparison(LessEqual) <=][2:32 Name(Other) hour][2:37 Comparison(Less) <][2:39 Number(Integer) 24][3:4 Keyword(And) and][3:8 Number(Integer) 0][3:10 Comparison(LessEqual) <=][3:13 Name(Other) minute][3:20 Comparison(Less) <][3:22 Number(Integer) 60][3:25 Keyword(And) and][3:29 Number(Integer) 0][3:31 Comparison(LessEqual) <=][3:34 Name(Other) second][3:41 Comparison(Less) <][3:43 Number(Integer) 60][3:45 Delimiter(Colon) :];1 [4:9 Keyword(Return) return][4:16 Number(Integer) 1];",
    ),
    ("a\\\nb", "0 [1:1 Name(Other) a][2:1 Name(Other) b];"),
    (
        "1\\\n2\\\n  3",
        "0 [1:1 Number(Integer) 1][2:1 Number(Integer) 2][3:3 Number(Integer) 3];",
    ),
    (
        "x = \\\n\\\n  1\ny",
        "0 [1:1 Name(Other) x][1:3 Delimiter(Equal) =][3:3 Number(Integer) 1];0 [4:1 Name(Other) y];",
    ),
    (
        "(a \\\n b)",
        "0 [1:1 Open(Round) (][1:2 Name(Other) a][2:2 Name(Other) b][2:3 Close(Round) )];",
    ),
    // the indent is that of the first physical line that has one
    (
        "if x:\n  \\\n      y\n  z",
        "0 [1:1 Keyword(If) if][1:4 Name(Other) x][1:5 Delimiter(Colon) :];1 [3:7 Name(Other) y];1 [4:3 Name(Other) z];",
    ),
    (
        "if x:\n\\\n    y\n    z",
        "0 [1:1 Keyword(If) if][1:4 Name(Other) x][1:5 Delimiter(Colon) :];1 [3:5 Name(Other) y];1 [4:5 Name(Other) z];",
    ),
    (
        "if x:\n    y\n\\\n    z",
        "0 [1:1 Keyword(If) if][1:4 Name(Other) x][1:5 Delimiter(Colon) :];1 [2:5 Name(Other) y];1 [4:5 Name(Other) z];",
    ),
    (
        "  \\\n\\\n x\n  y",
        "1 [3:2 Name(Other) x];1 [4:3 Name(Other) y];",
    ),
    // blanks and backslashes alone give nothing
    ("  \\\n\nx", "0 [3:1 Name(Other) x];"),
    (
        "if x:\n  y\n \\\n   \n  z",
        "0 [1:1 Keyword(If) if][1:4 Name(Other) x][1:5 Delimiter(Colon) :];1 [2:3 Name(Other) y];1 [5:3 Name(Other) z];",
    ),
    // a comment is not joined
    ("# a \\\nx", "0 [2:1 Name(Other) x];"),
    (
        "x # a \\\ny",
        "0 [1:1 Name(Other) x];0 [2:1 Name(Other) y];",
    ),
    // within a string, a backslash and a line end are its own
    (
        "'''a\\\n''' \\\n x",
        "0 [1:1 String(Plain) '''a\\\n'''][3:2 Name(Other) x];",
    ),
    // line feed, carriage return and line feed, carriage return
    (
        "a\r\nb\rc\nd\n\re\r\n\r\nf",
        "0 [1:1 Name(Other) a];0 [2:1 Name(Other) b];0 [3:1 Name(Other) c];0 [4:1 Name(Other) d];0 [6:1 Name(Other) e];0 [8:1 Name(Other) f];",
    ),
    (
        "if x:\r\n  y\r\n  z\rw",
        "0 [1:1 Keyword(If) if][1:4 Name(Other) x][1:5 Delimiter(Colon) :];1 [2:3 Name(Other) y];1 [3:3 Name(Other) z];0 [4:1 Name(Other) w];",
    ),
    (
        "a\\\r\nb\\\rc\\\nd",
        "0 [1:1 Name(Other) a][2:1 Name(Other) b][3:1 Name(Other) c][4:1 Name(Other) d];",
    ),
    (
        "(\ra,\r\nb)\rc",
        "0 [1:1 Open(Round) (][2:1 Name(Other) a][2:2 Delimiter(Comma) ,][3:1 Name(Other) b][3:2 Close(Round) )];0 [4:1 Name(Other) c];",
    ),
    (
        "# a\rb # c\r\nd",
        "0 [2:1 Name(Other) b];0 [3:1 Name(Other) d];",
    ),
    ("\r\r\n\n\rx", "0 [5:1 Name(Other) x];"),
    // the byte order mark is no character of the first line
    (
        "\u{feff}x = 1\ny",
        "0 [1:1 Name(Other) x][1:3 Delimiter(Equal) =][1:5 Number(Integer) 1];0 [2:1 Name(Other) y];",
    ),
    ("\u{feff}# a\r\n  x", "1 [2:3 Name(Other) x];"),
    ("\u{feff}", ""),
    // no line end after the last line
    (
        "if x:\n  y",
        "0 [1:1 Keyword(If) if][1:4 Name(Other) x][1:5 Delimiter(Colon) :];1 [2:3 Name(Other) y];",
    ),
    ("x # a", "0 [1:1 Name(Other) x];"),
    ("x \t", "0 [1:1 Name(Other) x];"),
];
