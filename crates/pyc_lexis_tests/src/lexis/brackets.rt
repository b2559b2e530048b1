//! Brackets: they nest, and no line ends within them.

pub(super) const CASES: &[(&str, &str)] = &[
    (
        "month_names = ['Januari', 'Februari', 'Maart',      # These are the\n               'April',   'Mei',      'Juni',       # Dutch names\n               'Juli',    'Augustus', 'September',  # for the months\n               'Oktober', 'November', 'December']   # of the year\n",
        "0 [1:1 Name(Other) month_names][1:13 Delimiter(Equal) =][1:15 Open(Square) [][1:16 String(Plain) 'Januari'][1:25 Delimiter(Comma) ,][1:27 String(Plain) 'Februari'][1:37 Delimiter(Comma) ,][1:39 String(Plain) 'Maart'][1:46 Delimiter(Comma) ,][2:16 String(Plain) 'April'][2:23 Delimiter(Comma) ,][2:27 String(Plain) 'Mei'][2:32 Delimiter(Comma) ,][2:39 String(Plain) 'Juni'][2:45 Delimiter(Comma) ,][3:16 String(Plain) 'Juli'][3:22 Delimiter(Comma) ,][3:27 String(Plain) 'Augustus'][3:37 Delimiter(Comma) ,][3:39 String(Plain) 'September'][3:50 Delimiter(Comma) ,][4:16 String(Plain) 'Oktober'][4:25 Delimiter(Comma) ,][4:27 String(Plain) 'November'][4:37 Delimiter(Comma) ,][4:39 String(Plain) 'December'][4:49 Close(Square) ]];",
    ),
    (
        "()[]{}",
        "0 [1:1 Open(Round) (][1:2 Close(Round) )][1:3 Open(Square) [][1:4 Close(Square) ]][1:5 Open(Curly) {][1:6 Close(Curly) }];",
    ),
    (
        "([{}])",
        "0 [1:1 Open(Round) (][1:2 Open(Square) [][1:3 Open(Curly) {][1:4 Close(Curly) }][1:5 Close(Square) ]][1:6 Close(Round) )];",
    ),
    (
        "{[(a)]:(b)}",
        "0 [1:1 Open(Curly) {][1:2 Open(Square) [][1:3 Open(Round) (][1:4 Name(Other) a][1:5 Close(Round) )][1:6 Close(Square) ]][1:7 Delimiter(Colon) :][1:8 Open(Round) (][1:9 Name(Other) b][1:10 Close(Round) )][1:11 Close(Curly) }];",
    ),
    (
        "x = (\n)\ny",
        "0 [1:1 Name(Other) x][1:3 Delimiter(Equal) =][1:5 Open(Round) (][2:1 Close(Round) )];0 [3:1 Name(Other) y];",
    ),
    (
        "(\n\n  # a\n\t\n1,\n)",
        "0 [1:1 Open(Round) (][5:1 Number(Integer) 1][5:2 Delimiter(Comma) ,][6:1 Close(Round) )];",
    ),
    (
        "f(a,\n  b[c:\nd], {\n}) + \\\n  g\nh",
        "0 [1:1 Name(Other) f][1:2 Open(Round) (][1:3 Name(Other) a][1:4 Delimiter(Comma) ,][2:3 Name(Other) b][2:4 Open(Square) [][2:5 Name(Other) c][2:6 Delimiter(Colon) :][3:1 Name(Other) d][3:2 Close(Square) ]][3:3 Delimiter(Comma) ,][3:5 Open(Curly) {][4:1 Close(Curly) }][4:2 Close(Round) )][4:4 Arithmetic(Plus) +][5:3 Name(Other) g];0 [6:1 Name(Other) h];",
    ),
    (
        "(a)\n(b)",
        "0 [1:1 Open(Round) (][1:2 Name(Other) a][1:3 Close(Round) )];0 [2:1 Open(Round) (][2:2 Name(Other) b][2:3 Close(Round) )];",
    ),
    (
        "((a\n)\n)\nb",
        "0 [1:1 Open(Round) (][1:2 Open(Round) (][1:3 Name(Other) a][2:1 Close(Round) )][3:1 Close(Round) )];0 [4:1 Name(Other) b];",
    ),
    (
        "(\n  if x:\n)",
        "0 [1:1 Open(Round) (][2:3 Keyword(If) if][2:6 Name(Other) x][2:7 Delimiter(Colon) :][3:1 Close(Round) )];",
    ),
];
