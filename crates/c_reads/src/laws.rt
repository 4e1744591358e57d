ghost use Rattle.c_grammar.specs.Items.{Sym};
ghost use Rattle.c_tree.specs.declared.expression.Expr.{Expr};
ghost use Rattle.c_reads.specs.Exact.{Stops, Parses};
ghost use Rattle.c_cursor.specs.Parsers.{Input, Parser};
ghost use Rattle.c_reads.specs.Postfix.{Inside, postfix, postfix_goes_on};

/// Over parsers that read exactly what stands inside, the parser of postfix expressions reads them exactly.
pub fn postfix_is_exact()
    ensures { (inside argument : Parser Expr) → Inside inside argument → (start : Input) → Parses (Stops postfix_goes_on) Sym.Postfix tt (postfix inside argument) start }
{}
