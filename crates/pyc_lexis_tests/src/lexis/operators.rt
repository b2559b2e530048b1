//! Operators and delimiters: each of them, and the longest that stands there.

pub(super) const CASES: &[(&str, &str)] = &[
    (
        "a + b - c * d / e // f % g @ h",
        "0 [1:1 Name(Other) a][1:3 Arithmetic(Plus) +][1:5 Name(Other) b][1:7 Arithmetic(Minus) -][1:9 Name(Other) c][1:11 Arithmetic(Star) *][1:13 Name(Other) d][1:15 Arithmetic(Slash) /][1:17 Name(Other) e][1:19 Arithmetic(DoubleSlash) //][1:22 Name(Other) f][1:24 Arithmetic(Percent) %][1:26 Name(Other) g][1:28 Arithmetic(At) @][1:30 Name(Other) h];",
    ),
    (
        "a & b | c ^ d ~ e << f >> g ** h",
        "0 [1:1 Name(Other) a][1:3 Arithmetic(Ampersand) &][1:5 Name(Other) b][1:7 Arithmetic(Bar) |][1:9 Name(Other) c][1:11 Arithmetic(Caret) ^][1:13 Name(Other) d][1:15 Delimiter(Tilde) ~][1:17 Name(Other) e][1:19 Arithmetic(LeftShift) <<][1:22 Name(Other) f][1:24 Arithmetic(RightShift) >>][1:27 Name(Other) g][1:29 Arithmetic(DoubleStar) **][1:32 Name(Other) h];",
    ),
    (
        "a < b > c <= d >= e == f != g",
        "0 [1:1 Name(Other) a][1:3 Comparison(Less) <][1:5 Name(Other) b][1:7 Comparison(Greater) >][1:9 Name(Other) c][1:11 Comparison(LessEqual) <=][1:14 Name(Other) d][1:16 Comparison(GreaterEqual) >=][1:19 Name(Other) e][1:21 Comparison(Equal) ==][1:24 Name(Other) f][1:26 Comparison(NotEqual) !=][1:29 Name(Other) g];",
    ),
    (
        "a = b := c -> d : e , f . g ; h ...",
        "0 [1:1 Name(Other) a][1:3 Delimiter(Equal) =][1:5 Name(Other) b][1:7 Delimiter(ColonEqual) :=][1:10 Name(Other) c][1:12 Delimiter(Arrow) ->][1:15 Name(Other) d][1:17 Delimiter(Colon) :][1:19 Name(Other) e][1:21 Delimiter(Comma) ,][1:23 Name(Other) f][1:25 Delimiter(Dot) .][1:27 Name(Other) g][1:29 Delimiter(Semicolon) ;][1:31 Name(Other) h][1:33 Delimiter(Ellipsis) ...];",
    ),
    (
        "a += b -= c *= d /= e //= f %= g @= h",
        "0 [1:1 Name(Other) a][1:3 Augmented(Plus) +=][1:6 Name(Other) b][1:8 Augmented(Minus) -=][1:11 Name(Other) c][1:13 Augmented(Star) *=][1:16 Name(Other) d][1:18 Augmented(Slash) /=][1:21 Name(Other) e][1:23 Augmented(DoubleSlash) //=][1:27 Name(Other) f][1:29 Augmented(Percent) %=][1:32 Name(Other) g][1:34 Augmented(At) @=][1:37 Name(Other) h];",
    ),
    (
        "a &= b |= c ^= d <<= e >>= f **= g",
        "0 [1:1 Name(Other) a][1:3 Augmented(Ampersand) &=][1:6 Name(Other) b][1:8 Augmented(Bar) |=][1:11 Name(Other) c][1:13 Augmented(Caret) ^=][1:16 Name(Other) d][1:18 Augmented(LeftShift) <<=][1:22 Name(Other) e][1:24 Augmented(RightShift) >>=][1:28 Name(Other) f][1:30 Augmented(DoubleStar) **=][1:34 Name(Other) g];",
    ),
    (
        "( ) [ ] { }",
        "0 [1:1 Open(Round) (][1:3 Close(Round) )][1:5 Open(Square) [][1:7 Close(Square) ]][1:9 Open(Curly) {][1:11 Close(Curly) }];",
    ),
    (
        "a**=b**c*=d*e",
        "0 [1:1 Name(Other) a][1:2 Augmented(DoubleStar) **=][1:5 Name(Other) b][1:6 Arithmetic(DoubleStar) **][1:8 Name(Other) c][1:9 Augmented(Star) *=][1:11 Name(Other) d][1:12 Arithmetic(Star) *][1:13 Name(Other) e];",
    ),
    (
        "a//=b//c/=d/e",
        "0 [1:1 Name(Other) a][1:2 Augmented(DoubleSlash) //=][1:5 Name(Other) b][1:6 Arithmetic(DoubleSlash) //][1:8 Name(Other) c][1:9 Augmented(Slash) /=][1:11 Name(Other) d][1:12 Arithmetic(Slash) /][1:13 Name(Other) e];",
    ),
    (
        "a<<=b<<c<=d<e>>=f>>g>=h>i",
        "0 [1:1 Name(Other) a][1:2 Augmented(LeftShift) <<=][1:5 Name(Other) b][1:6 Arithmetic(LeftShift) <<][1:8 Name(Other) c][1:9 Comparison(LessEqual) <=][1:11 Name(Other) d][1:12 Comparison(Less) <][1:13 Name(Other) e][1:14 Augmented(RightShift) >>=][1:17 Name(Other) f][1:18 Arithmetic(RightShift) >>][1:20 Name(Other) g][1:21 Comparison(GreaterEqual) >=][1:23 Name(Other) h][1:24 Comparison(Greater) >][1:25 Name(Other) i];",
    ),
    (
        "a@=b@c%=d%e&=f&g|=h|i^=j^k",
        "0 [1:1 Name(Other) a][1:2 Augmented(At) @=][1:4 Name(Other) b][1:5 Arithmetic(At) @][1:6 Name(Other) c][1:7 Augmented(Percent) %=][1:9 Name(Other) d][1:10 Arithmetic(Percent) %][1:11 Name(Other) e][1:12 Augmented(Ampersand) &=][1:14 Name(Other) f][1:15 Arithmetic(Ampersand) &][1:16 Name(Other) g][1:17 Augmented(Bar) |=][1:19 Name(Other) h][1:20 Arithmetic(Bar) |][1:21 Name(Other) i][1:22 Augmented(Caret) ^=][1:24 Name(Other) j][1:25 Arithmetic(Caret) ^][1:26 Name(Other) k];",
    ),
    (
        "a!=b==c:=d->e-=f-g+=h+i",
        "0 [1:1 Name(Other) a][1:2 Comparison(NotEqual) !=][1:4 Name(Other) b][1:5 Comparison(Equal) ==][1:7 Name(Other) c][1:8 Delimiter(ColonEqual) :=][1:10 Name(Other) d][1:11 Delimiter(Arrow) ->][1:13 Name(Other) e][1:14 Augmented(Minus) -=][1:16 Name(Other) f][1:17 Arithmetic(Minus) -][1:18 Name(Other) g][1:19 Augmented(Plus) +=][1:21 Name(Other) h][1:22 Arithmetic(Plus) +][1:23 Name(Other) i];",
    ),
    (
        ".. .... ..... a.b...c",
        "0 [1:1 Delimiter(Dot) .][1:2 Delimiter(Dot) .][1:4 Delimiter(Ellipsis) ...][1:7 Delimiter(Dot) .][1:9 Delimiter(Ellipsis) ...][1:12 Delimiter(Dot) .][1:13 Delimiter(Dot) .][1:15 Name(Other) a][1:16 Delimiter(Dot) .][1:17 Name(Other) b][1:18 Delimiter(Ellipsis) ...][1:21 Name(Other) c];",
    ),
    (
        "<> <=> <<> <<>>= >>>= =>",
        "0 [1:1 Comparison(Less) <][1:2 Comparison(Greater) >][1:4 Comparison(LessEqual) <=][1:6 Comparison(Greater) >][1:8 Arithmetic(LeftShift) <<][1:10 Comparison(Greater) >][1:12 Arithmetic(LeftShift) <<][1:14 Augmented(RightShift) >>=][1:18 Arithmetic(RightShift) >>][1:20 Comparison(GreaterEqual) >=][1:23 Delimiter(Equal) =][1:24 Comparison(Greater) >];",
    ),
    (
        "=== ==== !== !=== :== ::= -> --> ->> ->= -=> +=+ =+",
        "0 [1:1 Comparison(Equal) ==][1:3 Delimiter(Equal) =][1:5 Comparison(Equal) ==][1:7 Comparison(Equal) ==][1:10 Comparison(NotEqual) !=][1:12 Delimiter(Equal) =][1:14 Comparison(NotEqual) !=][1:16 Comparison(Equal) ==][1:19 Delimiter(ColonEqual) :=][1:21 Delimiter(Equal) =][1:23 Delimiter(Colon) :][1:24 Delimiter(ColonEqual) :=][1:27 Delimiter(Arrow) ->][1:30 Arithmetic(Minus) -][1:31 Delimiter(Arrow) ->][1:34 Delimiter(Arrow) ->][1:36 Comparison(Greater) >][1:38 Delimiter(Arrow) ->][1:40 Delimiter(Equal) =][1:42 Augmented(Minus) -=][1:44 Comparison(Greater) >][1:46 Augmented(Plus) +=][1:48 Arithmetic(Plus) +][1:50 Delimiter(Equal) =][1:51 Arithmetic(Plus) +];",
    ),
    (
        "*** **** ***= **** *=* /// //// ///= +-+ ++ -- ~= ~~ @@= %%= &&= ||= ^^=",
        "0 [1:1 Arithmetic(DoubleStar) **][1:3 Arithmetic(Star) *][1:5 Arithmetic(DoubleStar) **][1:7 Arithmetic(DoubleStar) **][1:10 Arithmetic(DoubleStar) **][1:12 Augmented(Star) *=][1:15 Arithmetic(DoubleStar) **][1:17 Arithmetic(DoubleStar) **][1:20 Augmented(Star) *=][1:22 Arithmetic(Star) *][1:24 Arithmetic(DoubleSlash) //][1:26 Arithmetic(Slash) /][1:28 Arithmetic(DoubleSlash) //][1:30 Arithmetic(DoubleSlash) //][1:33 Arithmetic(DoubleSlash) //][1:35 Augmented(Slash) /=][1:38 Arithmetic(Plus) +][1:39 Arithmetic(Minus) -][1:40 Arithmetic(Plus) +][1:42 Arithmetic(Plus) +][1:43 Arithmetic(Plus) +][1:45 Arithmetic(Minus) -][1:46 Arithmetic(Minus) -][1:48 Delimiter(Tilde) ~][1:49 Delimiter(Equal) =][1:51 Delimiter(Tilde) ~][1:52 Delimiter(Tilde) ~][1:54 Arithmetic(At) @][1:55 Augmented(At) @=][1:58 Arithmetic(Percent) %][1:59 Augmented(Percent) %=][1:62 Arithmetic(Ampersand) &][1:63 Augmented(Ampersand) &=][1:66 Arithmetic(Bar) |][1:67 Augmented(Bar) |=][1:70 Arithmetic(Caret) ^][1:71 Augmented(Caret) ^=];",
    ),
    (
        "x[-1:]=-y;z=(~a,),{*b}",
        "0 [1:1 Name(Other) x][1:2 Open(Square) [][1:3 Arithmetic(Minus) -][1:4 Number(Integer) 1][1:5 Delimiter(Colon) :][1:6 Close(Square) ]][1:7 Delimiter(Equal) =][1:8 Arithmetic(Minus) -][1:9 Name(Other) y][1:10 Delimiter(Semicolon) ;][1:11 Name(Other) z][1:12 Delimiter(Equal) =][1:13 Open(Round) (][1:14 Delimiter(Tilde) ~][1:15 Name(Other) a][1:16 Delimiter(Comma) ,][1:17 Close(Round) )][1:18 Delimiter(Comma) ,][1:19 Open(Curly) {][1:20 Arithmetic(Star) *][1:21 Name(Other) b][1:22 Close(Curly) }];",
    ),
    (
        "f(*a,**b)",
        "0 [1:1 Name(Other) f][1:2 Open(Round) (][1:3 Arithmetic(Star) *][1:4 Name(Other) a][1:5 Delimiter(Comma) ,][1:6 Arithmetic(DoubleStar) **][1:8 Name(Other) b][1:9 Close(Round) )];",
    ),
    (
        "lambda*a,**b:0",
        "0 [1:1 Keyword(Lambda) lambda][1:7 Arithmetic(Star) *][1:8 Name(Other) a][1:9 Delimiter(Comma) ,][1:10 Arithmetic(DoubleStar) **][1:12 Name(Other) b][1:13 Delimiter(Colon) :][1:14 Number(Integer) 0];",
    ),
];
