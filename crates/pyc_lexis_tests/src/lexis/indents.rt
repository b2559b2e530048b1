//! Indents: tabs, spaces and form feeds, blank lines, several dedents at once.

pub(super) const CASES: &[(&str, &str)] = &[
    (
        "def perm(l):\n        # Compute the list of all permutations of l\n    if len(l) <= 1:\n                  return [l]\n    r = []\n    for i in range(len(l)):\n             s = l[:i] + l[i+1:]\n             p = perm(s)\n             for x in p:\n              r.append(l[i:i+1] + x)\n    return r\n",
        "0 [1:1 Keyword(Def) def][1:5 Name(Other) perm][1:9 Open(Round) (][1:10 Name(Other) l][1:11 Close(Round) )][1:12 Delimiter(Colon) :];1 [3:5 Keyword(If) if][3:8 Name(Other) len][3:11 Open(Round) (][3:12 Name(Other) l][3:13 Close(Round) )][3:15 Comparison(LessEqual) <=][3:18 Number(Integer) 1][3:19 Delimiter(Colon) :];2 [4:19 Keyword(Return) return][4:26 Open(Square) [][4:27 Name(Other) l][4:28 Close(Square) ]];1 [5:5 Name(Other) r][5:7 Delimiter(Equal) =][5:9 Open(Square) [][5:10 Close(Square) ]];1 [6:5 Keyword(For) for][6:9 Name(Other) i][6:11 Keyword(In) in][6:14 Name(Other) range][6:19 Open(Round) (][6:20 Name(Other) len][6:23 Open(Round) (][6:24 Name(Other) l][6:25 Close(Round) )][6:26 Close(Round) )][6:27 Delimiter(Colon) :];2 [7:14 Name(Other) s][7:16 Delimiter(Equal) =][7:18 Name(Other) l][7:19 Open(Square) [][7:20 Delimiter(Colon) :][7:21 Name(Other) i][7:22 Close(Square) ]][7:24 Arithmetic(Plus) +][7:26 Name(Other) l][7:27 Open(Square) [][7:28 Name(Other) i][7:29 Arithmetic(Plus) +][7:30 Number(Integer) 1][7:31 Delimiter(Colon) :][7:32 Close(Square) ]];2 [8:14 Name(Other) p][8:16 Delimiter(Equal) =][8:18 Name(Other) perm][8:22 Open(Round) (][8:23 Name(Other) s][8:24 Close(Round) )];2 [9:14 Keyword(For) for][9:18 Name(Other) x][9:20 Keyword(In) in][9:23 Name(Other) p][9:24 Delimiter(Colon) :];3 [10:15 Name(Other) r][10:16 Delimiter(Dot) .][10:17 Name(Other) append][10:23 Open(Round) (][10:24 Name(Other) l][10:25 Open(Square) [][10:26 Name(Other) i][10:27 Delimiter(Colon) :][10:28 Name(Other) i][10:29 Arithmetic(Plus) +][10:30 Number(Integer) 1][10:31 Close(Square) ]][10:33 Arithmetic(Plus) +][10:35 Name(Other) x][10:36 Close(Round) )];1 [11:5 Keyword(Return) return][11:12 Name(Other) r];",
    ),
    (
        "if x:\n  y\n  z\nw",
        "0 [1:1 Keyword(If) if][1:4 Name(Other) x][1:5 Delimiter(Colon) :];1 [2:3 Name(Other) y];1 [3:3 Name(Other) z];0 [4:1 Name(Other) w];",
    ),
    (
        "if x:\n  if y:\n      if z:\n       a\nb",
        "0 [1:1 Keyword(If) if][1:4 Name(Other) x][1:5 Delimiter(Colon) :];1 [2:3 Keyword(If) if][2:6 Name(Other) y][2:7 Delimiter(Colon) :];2 [3:7 Keyword(If) if][3:10 Name(Other) z][3:11 Delimiter(Colon) :];3 [4:8 Name(Other) a];0 [5:1 Name(Other) b];",
    ),
    (
        "if x:\n  if y:\n      if z:\n       a\n      b\n  c\nd",
        "0 [1:1 Keyword(If) if][1:4 Name(Other) x][1:5 Delimiter(Colon) :];1 [2:3 Keyword(If) if][2:6 Name(Other) y][2:7 Delimiter(Colon) :];2 [3:7 Keyword(If) if][3:10 Name(Other) z][3:11 Delimiter(Colon) :];3 [4:8 Name(Other) a];2 [5:7 Name(Other) b];1 [6:3 Name(Other) c];0 [7:1 Name(Other) d];",
    ),
    // a first line may be indented
    ("  x\ny", "1 [1:3 Name(Other) x];0 [2:1 Name(Other) y];"),
    (
        "  x\n  y\n    z\n",
        "1 [1:3 Name(Other) x];1 [2:3 Name(Other) y];2 [3:5 Name(Other) z];",
    ),
    // a tab goes on to the next multiple of 8
    (
        "if x:\n\tif y:\n\t\tz\n\tw",
        "0 [1:1 Keyword(If) if][1:4 Name(Other) x][1:5 Delimiter(Colon) :];1 [2:2 Keyword(If) if][2:5 Name(Other) y][2:6 Delimiter(Colon) :];2 [3:3 Name(Other) z];1 [4:2 Name(Other) w];",
    ),
    (
        "if x:\n        if y:\n        \tz\n        w",
        "0 [1:1 Keyword(If) if][1:4 Name(Other) x][1:5 Delimiter(Colon) :];1 [2:9 Keyword(If) if][2:12 Name(Other) y][2:13 Delimiter(Colon) :];2 [3:10 Name(Other) z];1 [4:9 Name(Other) w];",
    ),
    (
        "if x:\n  if y:\n  \tz\n  w",
        "0 [1:1 Keyword(If) if][1:4 Name(Other) x][1:5 Delimiter(Colon) :];1 [2:3 Keyword(If) if][2:6 Name(Other) y][2:7 Delimiter(Colon) :];2 [3:4 Name(Other) z];1 [4:3 Name(Other) w];",
    ),
    (
        "if x:\n\t  if y:\n\t  \tz\n\t  w\nv",
        "0 [1:1 Keyword(If) if][1:4 Name(Other) x][1:5 Delimiter(Colon) :];1 [2:4 Keyword(If) if][2:7 Name(Other) y][2:8 Delimiter(Colon) :];2 [3:5 Name(Other) z];1 [4:4 Name(Other) w];0 [5:1 Name(Other) v];",
    ),
    (
        "\t x\n\t  y",
        "1 [1:3 Name(Other) x];2 [2:4 Name(Other) y];",
    ),
    (
        "if x:\n\tif y:\n         z",
        "0 [1:1 Keyword(If) if][1:4 Name(Other) x][1:5 Delimiter(Colon) :];1 [2:2 Keyword(If) if][2:5 Name(Other) y][2:6 Delimiter(Colon) :];2 [3:10 Name(Other) z];",
    ),
    (
        "if x:\n  if y:\n\t  z\n",
        "0 [1:1 Keyword(If) if][1:4 Name(Other) x][1:5 Delimiter(Colon) :];1 [2:3 Keyword(If) if][2:6 Name(Other) y][2:7 Delimiter(Colon) :];2 [3:4 Name(Other) z];",
    ),
    // a form feed sets the column to 0
    (
        "\u{c}if x:\n\u{c}  y\n  \u{c}  z\n\t\u{c}w",
        "0 [1:2 Keyword(If) if][1:5 Name(Other) x][1:6 Delimiter(Colon) :];1 [2:4 Name(Other) y];1 [3:6 Name(Other) z];0 [4:3 Name(Other) w];",
    ),
    (
        "if x:\n    y\n \u{c}    z\n",
        "0 [1:1 Keyword(If) if][1:4 Name(Other) x][1:5 Delimiter(Colon) :];1 [2:5 Name(Other) y];1 [3:7 Name(Other) z];",
    ),
    (
        "x\u{c}y \u{c} z",
        "0 [1:1 Name(Other) x][1:3 Name(Other) y][1:7 Name(Other) z];",
    ),
    // blank lines and lines of a comment alone give nothing, whatever their indent
    (
        "if x:\n    y\n\n  \n # a\n\t\t# b\n      #c\n    z",
        "0 [1:1 Keyword(If) if][1:4 Name(Other) x][1:5 Delimiter(Colon) :];1 [2:5 Name(Other) y];1 [8:5 Name(Other) z];",
    ),
    ("\n\n   \n\t# a\nx", "0 [5:1 Name(Other) x];"),
    ("# a\n  # b", ""),
    ("", ""),
    (" \t\u{c}", ""),
    ("\n", ""),
    // a line inside brackets or a string has no indent of its own
    (
        "if x:\n  y = (\n1,\n      2)\n  z",
        "0 [1:1 Keyword(If) if][1:4 Name(Other) x][1:5 Delimiter(Colon) :];1 [2:3 Name(Other) y][2:5 Delimiter(Equal) =][2:7 Open(Round) (][3:1 Number(Integer) 1][3:2 Delimiter(Comma) ,][4:7 Number(Integer) 2][4:8 Close(Round) )];1 [5:3 Name(Other) z];",
    ),
    (
        "if x:\n  y = \"\"\"\na\n      b\"\"\"\n  z",
        "0 [1:1 Keyword(If) if][1:4 Name(Other) x][1:5 Delimiter(Colon) :];1 [2:3 Name(Other) y][2:5 Delimiter(Equal) =][2:7 String(Plain) \"\"\"\na\n      b\"\"\"];1 [5:3 Name(Other) z];",
    ),
    // blanks between tokens
    (
        "x\t=\t1 ; \ty  ",
        "0 [1:1 Name(Other) x][1:3 Delimiter(Equal) =][1:5 Number(Integer) 1][1:7 Delimiter(Semicolon) ;][1:10 Name(Other) y];",
    ),
];
