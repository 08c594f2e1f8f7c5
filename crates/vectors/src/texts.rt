//! The texts of rows. Before each stands a line with the row's name, the kind as which it is read, and the words for what
//! is shown of it.

/// The worked rows, and at their end the texts of the guide.
pub(crate) const TEXTS: &str = r#"
== one-rule original-genericparsetree errors tables grammar
%start R %token T %% R: 'T';
== self-cycle original-genericparsetree tables costs minimal sentences
%start A %% A: A | 'x';
== two-spellings original-genericparsetree tables minimal
%start A %% A: B | C | 'y'; B: 'x'; C: 'x';
== empty-tail original-genericparsetree tables firsts follows
%start S %% S: B C 'd'; B: 'b'; C: 'c' | ;
== no-sentence original-genericparsetree tables firsts costs minimal sentences
%start A %% A: 'x' | B; B: 'y' B;
== cycles-that-do-not-grow-1 original-genericparsetree costs minimal
%start A %% A: A A | ;
== cycles-that-do-not-grow-2 original-genericparsetree costs
%start S %% S: S E | 'x'; E: ;
== cycles-that-do-not-grow-3 original-genericparsetree costs
%start S %% S: S E | 'x'; E: | 'y';
== cost-limit original-genericparsetree costs-of-255
%% X0: 'x';
X1: X0 X0; X2: X1 X1; X3: X2 X2; X4: X3 X3; X5: X4 X4; X6: X5 X5; X7: X6 X6; X8: X7 X7;
A: X8 X0;
B: X8 X0 X0;
== eco-implicit eco tables grammar
%implicit_tokens ws1 ws2
%start S
%% S: 'a' | T; T: 'c' | ;
== slash-in-comment original-genericparsetree errors tables
%start A /* x
/ */ %% A: ;
== empty-text-1 original-genericparsetree errors grammar

== empty-text-2 original-genericparsetree errors
%left 'a' %% A: ;
== empty-text-3 original-genericparsetree errors
%% S: a.b ; a.b: ;
== three-starts original-genericparsetree errors
%start A
%start B
%start C
%% A: ;
== section-faults-1 original-genericparsetree section
%grmtools {dupe, !dupe, dupe: test}
== section-faults-2 original-genericparsetree section
%grmtools {a: [x *]}
== section-faults-3 original-genericparsetree section
%grmtools {test_files: foo*.test,}
== section-faults-4 original-genericparsetree section
%grmtools {a: 18446744073709551616}
== section-faults-5 section errors
%grmtools {yacckind: GrmTools
== section-faults-5-by-new original-genericparsetree errors
%grmtools {yacckind: GrmTools
== action-and-quotes-1 original-useraction tables
%% A: 'x' { a } ;
== action-and-quotes-2 original-genericparsetree tables
%% A: ""x" ;
== indented-spans original-genericparsetree symbols

        %start start
        %token a
        %%
        start: "a" a;
        
== unused-symbols original-genericparsetree errors
%% A: ; B: 'b';
== comment-then-epp original-genericparsetree errors
%epp 'x' 'v'
%% A: 'x' /*
== unknown-names-1 original-genericparsetree errors
%expect-unused x
%% A: ;
== unknown-names-2 grmtools errors
%% A -> () : 'x' %prec 'y' ;
== minimal-of-four original-genericparsetree tables costs minimal opened
%start A %% A: A B | ; B: C | D; C: 'x' B | 'x'; D: 'y' B | 'y' 'z';
== paths original-genericparsetree paths
%start A %% A: B; B: B 'x' | C; C: C 'y' | ;
== lexer-names original-genericparsetree names
%start R %token T %% R: 'T';
== missing-rules-1 original-genericparsetree errors
%start B %% A: C;
== missing-rules-2 original-genericparsetree errors grammar
%start A %% A: C;
== missing-rules-3 original-genericparsetree errors grammar
%% A: 'x'
== no-spaces original-genericparsetree errors tables grammar
%startA%%A:;
== firsts-of-eight original-genericparsetree firsts openings
%start E %token a b c d e f %% E: T | E 'b' T; T: P | T 'e' P; P: 'a'; C: C 'c' | ; D: D 'd' | F; F: 'f' | ; G: C D;
== set-one-bit original-genericparsetree set
%start R %token T %% R: 'T';
== precedences original-genericparsetree tables
%left '+'
%right '*'
%% E: E '+' E | E '*' E | 'i' %prec '+' | 'i';
== grmtools-rule grmtools tables
%% A -> T::U : 'x' { b } ;
== empty-and-action-1 original-genericparsetree errors
%% A: 'x' %empty ;
== empty-and-action-2 original-genericparsetree errors
%% A: %empty 'x';
== empty-and-action-3 original-genericparsetree errors
%% A: { a } 'x';
== empty-and-action-4 original-genericparsetree errors tables
%% A: ; %% x y
== declaration-corners-1 original-genericparsetree errors
%avoid_insert x
== declaration-corners-2 original-genericparsetree errors
%avoid_insert
== declaration-corners-3 original-genericparsetree errors
%left x
== declaration-corners-4 original-genericparsetree errors
%expect 1
%expect 2
%% A: ;
== declaration-corners-5 original-genericparsetree tables
%epp 'x' 'a\'b'
%% A: 'x';
== declaration-corners-6 original-genericparsetree tables
%%
AB: 'a' | 'foo';
== declaration-corners-7 original-genericparsetree tables
%start S %% S: A 'c' 'd' | B 'c' 'e'; A: 'a'; B: 'a' | 'b'; A: 'b';
== section-kinds-1 section errors grammar
%grmtools{yacckind: Original(NoAction)} %% Start: ;
== section-kinds-2 section errors grammar
%grmtools{yacckind: YaccKind::Original(Foo::NoAction)} %% Start: ;
== section-kinds-3 section errors grammar
%% A: ;
== section-kinds-4 section errors
%grmtools{yacckind: YaccKind::Original(GenericParseTree)} %% Start: ;
== section-kinds-5 section errors
%grmtools{yacckind: Original(YACCOriginalActionKind::NoAction)} %% Start: ;
== section-kinds-6 section errors
%grmtools{yacckind: Foo} %% Start: ;
== section-kinds-7 section errors
%grmtools{yacckind: Foo::Grmtools} %% Start: ;
== section-kinds-8 section errors
%grmtools{yacckind: YaccKind::Original} %% Start: ;
== section-kinds-9 section errors
%grmtools{yacckind: YaccKind::Original()} %% Start: ;
== section-kinds-10 section errors
%grmtools{yacckindof: Original(NoAction)} %% Start: ;
== section-arrays-1 original-genericparsetree section
%grmtools {a: [x y], b}
== section-arrays-2 original-genericparsetree section
%grmtools {a: [x y] , b}
== section-then-no-start original-genericparsetree errors
%grmtools {a, a
== another-start original-genericparsetree errors starts
%start A %% A: B 'a'; B: 'b';
== lines-and-columns original-genericparsetree errors grammar
/*é*/%% A: C;
== follow-unreachable original-genericparsetree follows
%start A %% A: 'x'; B: A 'y';
== opening-bound original-genericparsetree openings
%start S %% S: B C 'd'; B: 'b'; C: 'c' | ;
== certificates-1 original-genericparsetree minimal
%start A %% A: B B B; B: 'x' | 'y';
== certificates-2 original-genericparsetree tables minimal
%start A %% A: B 'c'; B: 'b';
== certificates-3 original-genericparsetree checked
%start A %% A: A | 'x';
== greatest-costs-1 original-genericparsetree sentences
%start A %% A: 'x' A | 'y'; B: B 'z';
== greatest-costs-2 original-genericparsetree sentences
%start A %% A: 'x' | 'x' A B | ; B: B;
== greatest-costs-3 original-genericparsetree costs
%start A %% A: 'x' 'x' | B; B: 'y' 'y' 'y';
== every-cut original-genericparsetree cuts
%start R %token T %% R: 'T';
== hostile-section-1 original-genericparsetree section
%grmtools {a: [x
== hostile-section-2 original-genericparsetree section
%grmtools {a: "b
== hostile-cycle original-genericparsetree firsts follows costs minimal
%start A %% A: B; B: A;
== hostile-doubles original-genericparsetree costs beginning
%% A: X16 | A 'x';
X0: 'x'; X1: X0 X0; X2: X1 X1; X3: X2 X2; X4: X3 X3; X5: X4 X4; X6: X5 X5; X7: X6 X6;
X8: X7 X7; X9: X8 X8; X10: X9 X9; X11: X10 X10; X12: X11 X11; X13: X12 X12; X14: X13 X13;
X15: X14 X14; X16: X15 X15;
== first-minimal-1 original-genericparsetree tables minimal
%start A %% A: B | 'y'; B: 'x';
== first-minimal-2 original-genericparsetree tables minimal-by-index
%start A %% A: 'b' 'b' | 'a';
== first-minimal-3 original-genericparsetree tables minimal
%start A %% A: C 'z' | D; C: 'x' | 'w'; D: 'x' 'y';
== print_productions original-genericparsetree print_productions
%start A %% A: 'x' A | ;
== show_errors original-genericparsetree show_errors
%% Value: '[' Values ']';
== show_findings original-genericparsetree show_findings
%token NUMBER
%%
Value: NUMBER | '[' Values ']' | Values;
Values: | Value Values;
== print_table original-genericparsetree print_table
%token NUMBER
%avoid_insert NUMBER
%%
Value: NUMBER | '[' Values ']' | '(' ')';
Values: | Value Values;
== print_repairs original-genericparsetree print_repairs
%token NUMBER
%avoid_insert NUMBER
%%
Value: NUMBER | '[' Values ']' | '(' ')';
Values: | Value Values;
== print_indent original-genericparsetree print_indent
%grmtools{yacckind: Original(NoAction), indent: 4, colour: red}
%% A: ;
== print_nullable original-genericparsetree print_nullable
%token NUMBER
%%
Value: NUMBER | '[' Values ']';
Values: | Value Values;
== print_bison original-genericparsetree print_bison
%union { int number; }
%token <number> NUMBER "number"
%left '+'
%type <number> sum
%%
sum: sum '+' sum { $$ = $1 + $3; }
   | "number""#;
