//! Numbers: the examples of the language reference, every form, and where a number ends.

pub(super) const CASES: &[(&str, &str)] = &[
    // integer literals of the reference
    (
        "7     2147483647                        0o177    0b100110111",
        "0 [1:1 Number(Integer) 7][1:7 Number(Integer) 2147483647][1:41 Number(Integer) 0o177][1:50 Number(Integer) 0b100110111];",
    ),
    (
        "3     79228162514264337593543950336     0o377    0xdeadbeef",
        "0 [1:1 Number(Integer) 3][1:7 Number(Integer) 79228162514264337593543950336][1:41 Number(Integer) 0o377][1:50 Number(Integer) 0xdeadbeef];",
    ),
    (
        "100_000_000_000                   0b_1110_0101",
        "0 [1:1 Number(Integer) 100_000_000_000][1:35 Number(Integer) 0b_1110_0101];",
    ),
    // floating-point literals of the reference
    (
        "3.14    10.    .001    1e100    3.14e-10    0e0    3.14_15_93",
        "0 [1:1 Number(Float) 3.14][1:9 Number(Float) 10.][1:16 Number(Float) .001][1:24 Number(Float) 1e100][1:33 Number(Float) 3.14e-10][1:45 Number(Float) 0e0][1:52 Number(Float) 3.14_15_93];",
    ),
    // imaginary literals of the reference
    (
        "3.14j   10.j    10j     .001j   1e100j   3.14e-10j   3.14_15_93j",
        "0 [1:1 Number(Imaginary) 3.14j][1:9 Number(Imaginary) 10.j][1:17 Number(Imaginary) 10j][1:25 Number(Imaginary) .001j][1:33 Number(Imaginary) 1e100j][1:42 Number(Imaginary) 3.14e-10j][1:54 Number(Imaginary) 3.14_15_93j];",
    ),
    // either case
    (
        "0XaF 0O17 0B01 1E5 1J 1.5E+3J 0xABCDEFabcdef0123456789",
        "0 [1:1 Number(Integer) 0XaF][1:6 Number(Integer) 0O17][1:11 Number(Integer) 0B01][1:16 Number(Float) 1E5][1:20 Number(Imaginary) 1J][1:23 Number(Imaginary) 1.5E+3J][1:31 Number(Integer) 0xABCDEFabcdef0123456789];",
    ),
    // underscores
    (
        "0x_f_f 0o_7_7 0b_1_0 1_0.0_1e1_0 .1_2 1_0j 1e+1_0",
        "0 [1:1 Number(Integer) 0x_f_f][1:8 Number(Integer) 0o_7_7][1:15 Number(Integer) 0b_1_0][1:22 Number(Float) 1_0.0_1e1_0][1:34 Number(Float) .1_2][1:39 Number(Imaginary) 1_0j][1:44 Number(Float) 1e+1_0];",
    ),
    // zeros, and leading zeros
    (
        "0 00 0_0 0.0 00.5 0e5 0j 00e1 09.5 012e3 08j 0_9.5",
        "0 [1:1 Number(Integer) 0][1:3 Number(Integer) 00][1:6 Number(Integer) 0_0][1:10 Number(Float) 0.0][1:14 Number(Float) 00.5][1:19 Number(Float) 0e5][1:23 Number(Imaginary) 0j][1:26 Number(Float) 00e1][1:31 Number(Float) 09.5][1:36 Number(Float) 012e3][1:42 Number(Imaginary) 08j][1:46 Number(Float) 0_9.5];",
    ),
    (
        "007 0_7 0123456789",
        "0 [1:1 Number(Integer) 007][1:5 Number(Integer) 0_7][1:9 Number(Integer) 0123456789];",
    ),
    // a point without digits on one side
    (
        "1. 1.e5 1.j .5 .5e1 1..real 1.__class__ 1.5.real x.5 x.1.2",
        "0 [1:1 Number(Float) 1.][1:4 Number(Float) 1.e5][1:9 Number(Imaginary) 1.j][1:13 Number(Float) .5][1:16 Number(Float) .5e1][1:21 Number(Float) 1.][1:23 Delimiter(Dot) .][1:24 Name(Other) real][1:29 Number(Float) 1.][1:31 Name(Other) __class__][1:41 Number(Float) 1.5][1:44 Delimiter(Dot) .][1:45 Name(Other) real][1:50 Name(Other) x][1:51 Number(Float) .5][1:54 Name(Other) x][1:55 Number(Float) .1][1:57 Number(Float) .2];",
    ),
    // where no further digit stands, the number ends
    (
        "1_ 1__0 1_a 1._5 1.5_ 1.5_e3",
        "0 [1:1 Number(Integer) 1][1:2 Name(Other) _][1:4 Number(Integer) 1][1:5 Name(Other) __0][1:9 Number(Integer) 1][1:10 Name(Other) _a][1:13 Number(Float) 1.][1:15 Name(Other) _5][1:18 Number(Float) 1.5][1:21 Name(Other) _][1:23 Number(Float) 1.5][1:26 Name(Other) _e3];",
    ),
    (
        "0x 0xg 0x_ 0x__1 0o8 0o 0b2 0b 0b12 0o78 0_x1",
        "0 [1:1 Number(Integer) 0][1:2 Name(Other) x][1:4 Number(Integer) 0][1:5 Name(Other) xg][1:8 Number(Integer) 0][1:9 Name(Other) x_][1:12 Number(Integer) 0][1:13 Name(Other) x__1][1:18 Number(Integer) 0][1:19 Name(Other) o8][1:22 Number(Integer) 0][1:23 Name(Other) o][1:25 Number(Integer) 0][1:26 Name(Other) b2][1:29 Number(Integer) 0][1:30 Name(Other) b][1:32 Number(Integer) 0b1][1:35 Number(Integer) 2][1:37 Number(Integer) 0o7][1:40 Number(Integer) 8][1:42 Number(Integer) 0][1:43 Name(Other) _x1];",
    ),
    (
        "1e 1e+ 1e-x 1ex 1e_5 1e5_ 1e5.5 1e1e1 1.e 1.ex",
        "0 [1:1 Number(Integer) 1][1:2 Name(Other) e][1:4 Number(Integer) 1][1:5 Name(Other) e][1:6 Arithmetic(Plus) +][1:8 Number(Integer) 1][1:9 Name(Other) e][1:10 Arithmetic(Minus) -][1:11 Name(Other) x][1:13 Number(Integer) 1][1:14 Name(Other) ex][1:17 Number(Integer) 1][1:18 Name(Other) e_5][1:22 Number(Float) 1e5][1:25 Name(Other) _][1:27 Number(Float) 1e5][1:30 Number(Float) .5][1:33 Number(Float) 1e1][1:36 Name(Other) e1][1:39 Number(Float) 1.][1:41 Name(Other) e][1:43 Number(Float) 1.][1:45 Name(Other) ex];",
    ),
    (
        "1jj 1j5 1ja 0xfj 0b1j 1.2.3 1...2",
        "0 [1:1 Number(Imaginary) 1j][1:3 Name(Other) j][1:5 Number(Imaginary) 1j][1:7 Number(Integer) 5][1:9 Number(Imaginary) 1j][1:11 Name(Other) a][1:13 Number(Integer) 0xf][1:16 Name(Other) j][1:18 Number(Integer) 0b1][1:21 Name(Other) j][1:23 Number(Float) 1.2][1:26 Number(Float) .3][1:29 Number(Float) 1.][1:31 Delimiter(Dot) .][1:32 Number(Float) .2];",
    ),
    (
        "1if x else 2",
        "0 [1:1 Number(Integer) 1][1:2 Keyword(If) if][1:5 Name(Other) x][1:7 Keyword(Else) else][1:12 Number(Integer) 2];",
    ),
    (
        "0xfor x in 1or 2and 3",
        "0 [1:1 Number(Integer) 0xf][1:4 Keyword(Or) or][1:7 Name(Other) x][1:9 Keyword(In) in][1:12 Number(Integer) 1][1:13 Keyword(Or) or][1:16 Number(Integer) 2][1:17 Keyword(And) and][1:21 Number(Integer) 3];",
    ),
    (
        "-1 +1 1-1 1+1 1e-1-1 1.-.1",
        "0 [1:1 Arithmetic(Minus) -][1:2 Number(Integer) 1][1:4 Arithmetic(Plus) +][1:5 Number(Integer) 1][1:7 Number(Integer) 1][1:8 Arithmetic(Minus) -][1:9 Number(Integer) 1][1:11 Number(Integer) 1][1:12 Arithmetic(Plus) +][1:13 Number(Integer) 1][1:15 Number(Float) 1e-1][1:19 Arithmetic(Minus) -][1:20 Number(Integer) 1][1:22 Number(Float) 1.][1:24 Arithmetic(Minus) -][1:25 Number(Float) .1];",
    ),
];
