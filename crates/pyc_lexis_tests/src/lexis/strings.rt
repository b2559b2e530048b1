//! Strings: every prefix, both quotes, one and three of them, escapes, f-strings.

pub(super) const CASES: &[(&str, &str)] = &[
    (
        "r'a' R'a' u'a' U'a' b'a' B'a' br'a'",
        "0 [1:1 String(Raw) r'a'][1:6 String(Raw) R'a'][1:11 String(Unicode) u'a'][1:16 String(Unicode) U'a'][1:21 String(Bytes) b'a'][1:26 String(Bytes) B'a'][1:31 String(RawBytes) br'a'];",
    ),
    (
        "Br\"a\" bR\"a\" BR\"a\" rb\"a\" rB\"a\" Rb\"a\" RB\"a\"",
        "0 [1:1 String(RawBytes) Br\"a\"][1:7 String(RawBytes) bR\"a\"][1:13 String(RawBytes) BR\"a\"][1:19 String(RawBytes) rb\"a\"][1:25 String(RawBytes) rB\"a\"][1:31 String(RawBytes) Rb\"a\"][1:37 String(RawBytes) RB\"a\"];",
    ),
    (
        "f'a' F'a' fr'a' fR'a' Fr'a'",
        "0 [1:1 String(Format) f'a'][1:6 String(Format) F'a'][1:11 String(RawFormat) fr'a'][1:17 String(RawFormat) fR'a'][1:23 String(RawFormat) Fr'a'];",
    ),
    (
        "FR\"{a}\" rf\"{a}\" rF\"{a}\" Rf\"{a}\" RF\"{a}\"",
        "0 [1:1 String(RawFormat) FR\"{a}\"][1:9 String(RawFormat) rf\"{a}\"][1:17 String(RawFormat) rF\"{a}\"][1:25 String(RawFormat) Rf\"{a}\"][1:33 String(RawFormat) RF\"{a}\"];",
    ),
    (
        "r'''a''' R'''a''' u'''a''' U'''a''' b'''a''' B'''a''' br'''a''' Br'''a''' bR'''a''' BR'''a''' rb'''a''' rB'''a''' Rb'''a''' RB'''a''' '''a'''",
        "0 [1:1 String(Raw) r'''a'''][1:10 String(Raw) R'''a'''][1:19 String(Unicode) u'''a'''][1:28 String(Unicode) U'''a'''][1:37 String(Bytes) b'''a'''][1:46 String(Bytes) B'''a'''][1:55 String(RawBytes) br'''a'''][1:65 String(RawBytes) Br'''a'''][1:75 String(RawBytes) bR'''a'''][1:85 String(RawBytes) BR'''a'''][1:95 String(RawBytes) rb'''a'''][1:105 String(RawBytes) rB'''a'''][1:115 String(RawBytes) Rb'''a'''][1:125 String(RawBytes) RB'''a'''][1:135 String(Plain) '''a'''];",
    ),
    (
        "f\"\"\"a\"\"\" F\"\"\"a\"\"\" fr\"\"\"a\"\"\" fR\"\"\"a\"\"\" Fr\"\"\"a\"\"\" FR\"\"\"a\"\"\" rf\"\"\"a\"\"\" rF\"\"\"a\"\"\" Rf\"\"\"a\"\"\" RF\"\"\"a\"\"\" \"\"\"a\"\"\"",
        "0 [1:1 String(Format) f\"\"\"a\"\"\"][1:10 String(Format) F\"\"\"a\"\"\"][1:19 String(RawFormat) fr\"\"\"a\"\"\"][1:29 String(RawFormat) fR\"\"\"a\"\"\"][1:39 String(RawFormat) Fr\"\"\"a\"\"\"][1:49 String(RawFormat) FR\"\"\"a\"\"\"][1:59 String(RawFormat) rf\"\"\"a\"\"\"][1:69 String(RawFormat) rF\"\"\"a\"\"\"][1:79 String(RawFormat) Rf\"\"\"a\"\"\"][1:89 String(RawFormat) RF\"\"\"a\"\"\"][1:99 String(Plain) \"\"\"a\"\"\"];",
    ),
    // empty ones, and quotes of the other sort
    (
        "'' \"\" '''''' \"\"\"\"\"\" f'' b\"\" rb''''''",
        "0 [1:1 String(Plain) ''][1:4 String(Plain) \"\"][1:7 String(Plain) ''''''][1:14 String(Plain) \"\"\"\"\"\"][1:21 String(Format) f''][1:25 String(Bytes) b\"\"][1:29 String(RawBytes) rb''''''];",
    ),
    (
        "'\"' \"'\" '''\"\"\"''' \"\"\"'''\"\"\" '''it's ''so'' \"x\"'''",
        "0 [1:1 String(Plain) '\"'][1:5 String(Plain) \"'\"][1:9 String(Plain) '''\"\"\"'''][1:19 String(Plain) \"\"\"'''\"\"\"][1:29 String(Plain) '''it's ''so'' \"x\"'''];",
    ),
    (
        "\"\"\"\"a\"\"\" '''\n'a''' x",
        "0 [1:1 String(Plain) \"\"\"\"a\"\"\"][1:10 String(Plain) '''\n'a'''][2:7 Name(Other) x];",
    ),
    (
        "'a''b' 'a'\"b\" ''x ''''a'''b",
        "0 [1:1 String(Plain) 'a'][1:4 String(Plain) 'b'][1:8 String(Plain) 'a'][1:11 String(Plain) \"b\"][1:15 String(Plain) ''][1:17 Name(Other) x][1:19 String(Plain) ''''a'''][1:27 Name(Other) b];",
    ),
    // a backslash takes the next character along, in raw strings too
    (
        "'\\'' \"\\\"\" '\\\\' r'\\'' r\"\\\\\" b'\\'' '\\x41\\N{DASH}\\é'",
        "0 [1:1 String(Plain) '\\''][1:6 String(Plain) \"\\\"\"][1:11 String(Plain) '\\\\'][1:16 String(Raw) r'\\''][1:22 String(Raw) r\"\\\\\"][1:28 String(Bytes) b'\\''][1:34 String(Plain) '\\x41\\N{DASH}\\é'];",
    ),
    (
        "'''\\'''' '''a\\'''b''' r'''\\''''",
        "0 [1:1 String(Plain) '''\\''''][1:10 String(Plain) '''a\\'''b'''][1:23 String(Raw) r'''\\''''];",
    ),
    (
        "'a\\\nb' x",
        "0 [1:1 String(Plain) 'a\\\nb'][2:4 Name(Other) x];",
    ),
    (
        "'a\\\n\\\nb'  x\ny",
        "0 [1:1 String(Plain) 'a\\\n\\\nb'][3:5 Name(Other) x];0 [4:1 Name(Other) y];",
    ),
    (
        "'a\\\r\nb' x",
        "0 [1:1 String(Plain) 'a\\\r\nb'][2:4 Name(Other) x];",
    ),
    (
        "'a\\\rb' x",
        "0 [1:1 String(Plain) 'a\\\rb'][2:4 Name(Other) x];",
    ),
    (
        "r'a\\\r\nb\\\r\n' x",
        "0 [1:1 String(Raw) r'a\\\r\nb\\\r\n'][3:3 Name(Other) x];",
    ),
    // three quotes hold line ends; the column after is that of the last line
    (
        "x = '''a\n  b\n''' + y",
        "0 [1:1 Name(Other) x][1:3 Delimiter(Equal) =][1:5 String(Plain) '''a\n  b\n'''][3:5 Arithmetic(Plus) +][3:7 Name(Other) y];",
    ),
    (
        "'''é\né''' é",
        "0 [1:1 String(Plain) '''é\né'''][2:6 Name(Other) é];",
    ),
    (
        "'''a\r\nb\rc\nd''' x",
        "0 [1:1 String(Plain) '''a\r\nb\rc\nd'''][4:6 Name(Other) x];",
    ),
    // what is in a string is no comment, bracket or invalid character
    (
        "'#' \"# type: ignore\" '(' ']' '$?!`' '\u{1}\u{b}\u{7f}' 'é\u{2028}\u{feff}'",
        "0 [1:1 String(Plain) '#'][1:5 String(Plain) \"# type: ignore\"][1:22 String(Plain) '('][1:26 String(Plain) ']'][1:30 String(Plain) '$?!`'][1:37 String(Plain) '\u{1}\u{b}\u{7f}'][1:43 String(Plain) 'é\u{2028}\u{feff}'];",
    ),
    (
        "'\u{80}\u{7ff}ࠀ\u{d7ff}\u{e000}\u{ffff}\u{10000}\u{10ffff}' x # \u{10ffff}",
        "0 [1:1 String(Plain) '\u{80}\u{7ff}ࠀ\u{d7ff}\u{e000}\u{ffff}\u{10000}\u{10ffff}'][1:12 Name(Other) x];",
    ),
    ("'\0' # \0\n", "0 [1:1 String(Plain) '\0'];"),
    // letters before a quote that are no prefix are a name
    (
        "ub'' bu'' uu'' rr'' ff'' bb'' fb'' ru'' rbr'' brf''",
        "0 [1:1 Name(Other) ub][1:3 String(Plain) ''][1:6 Name(Other) bu][1:8 String(Plain) ''][1:11 Name(Other) uu][1:13 String(Plain) ''][1:16 Name(Other) rr][1:18 String(Plain) ''][1:21 Name(Other) ff][1:23 String(Plain) ''][1:26 Name(Other) bb][1:28 String(Plain) ''][1:31 Name(Other) fb][1:33 String(Plain) ''][1:36 Name(Other) ru][1:38 String(Plain) ''][1:41 Name(Other) rbr][1:44 String(Plain) ''][1:47 Name(Other) brf][1:50 String(Plain) ''];",
    ),
    (
        "a'' _'' r1'' é'' if'' not'a' bif'' tr''",
        "0 [1:1 Name(Other) a][1:2 String(Plain) ''][1:5 Name(Other) _][1:6 String(Plain) ''][1:9 Name(Other) r1][1:11 String(Plain) ''][1:14 Name(Other) é][1:15 String(Plain) ''][1:18 Keyword(If) if][1:20 String(Plain) ''][1:23 Keyword(Not) not][1:26 String(Plain) 'a'][1:30 Name(Other) bif][1:33 String(Plain) ''][1:36 Name(Other) tr][1:38 String(Plain) ''];",
    ),
    (
        "r '' r\n''",
        "0 [1:1 Name(Other) r][1:3 String(Plain) ''][1:6 Name(Other) r];0 [2:1 String(Plain) ''];",
    ),
    // f-strings
    (
        "f'{x}' f'{x!r:>{y}}' f'{x:{{}}}' f'{{}}' f'{{x}}' f'}}{{' f'{x}{{'",
        "0 [1:1 String(Format) f'{x}'][1:8 String(Format) f'{x!r:>{y}}'][1:22 String(Format) f'{x:{{}}}'][1:34 String(Format) f'{{}}'][1:42 String(Format) f'{{x}}'][1:51 String(Format) f'}}{{'][1:59 String(Format) f'{x}{{'];",
    ),
    (
        "f'{{{x}}}' f'{ {1: 2}[1] }' f'{x[\"a\"]}' f'{\"{\"}'",
        "0 [1:1 String(Format) f'{{{x}}}'][1:12 String(Format) f'{ {1: 2}[1] }'][1:29 String(Format) f'{x[\"a\"]}'][1:41 String(Format) f'{\"{\"}'];",
    ),
    (
        "f'\\N{DASH}' rf'\\{x}' f'{x}\\'' f'a{{{{b' f'{x=}'",
        "0 [1:1 String(Format) f'\\N{DASH}'][1:13 String(RawFormat) rf'\\{x}'][1:22 String(Format) f'{x}\\''][1:31 String(Format) f'a{{{{b'][1:41 String(Format) f'{x=}'];",
    ),
    (
        "f'''{\nx\n}''' f\"\"\"{'a' + 'b'}\"\"\" y",
        "0 [1:1 String(Format) f'''{\nx\n}'''][3:6 String(Format) f\"\"\"{'a' + 'b'}\"\"\"][3:25 Name(Other) y];",
    ),
    // by the rule that every `{` left after each `{{` is dropped has a `}` after it
    (
        "f'{}' f'}' f'{}}' f'{{{}'",
        "0 [1:1 String(Format) f'{}'][1:7 String(Format) f'}'][1:12 String(Format) f'{}}'][1:19 String(Format) f'{{{}'];",
    ),
    (
        "f'{{' f'{{{{' rf'{{' F'{{}'",
        "0 [1:1 String(Format) f'{{'][1:7 String(Format) f'{{{{'][1:15 String(RawFormat) rf'{{'][1:22 String(Format) F'{{}'];",
    ),
    // an f-string that uses its quote again ends there, which shows where no field is open
    (
        "f'{ {}['a'] }'",
        "0 [1:1 String(Format) f'{ {}['][1:9 Name(Other) a][1:10 String(Plain) '] }'];",
    ),
    // other strings have no fields
    (
        "'{' b'{' r\"{\" u'{' '''{'''",
        "0 [1:1 String(Plain) '{'][1:5 String(Bytes) b'{'][1:10 String(Raw) r\"{\"][1:15 String(Unicode) u'{'][1:20 String(Plain) '''{'''];",
    ),
    // a template string is a name and a string
    (
        "t'{a}' T\"{a}\" rt'' tr''",
        "0 [1:1 Name(Other) t][1:2 String(Plain) '{a}'][1:8 Name(Other) T][1:9 String(Plain) \"{a}\"][1:15 Name(Other) rt][1:17 String(Plain) ''][1:20 Name(Other) tr][1:22 String(Plain) ''];",
    ),
];
