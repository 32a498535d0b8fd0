//! Tokens, trees, the faults of texts, and the values of operators.
use dap_base::Place;
use expr_grammar::{
    Code, Expr, ParseError, Token, TokenError, Tokens, binary_value, parse_code, parse_expr,
    tokens, unary_value,
};
use std::alloc::{AllocError, Global};

/// Why a text is no list of statements or no expression.
#[derive(Clone, Copy)]
pub enum Fault {
    Bad(Place),
    Unexpected(Place),
    Deep(Place),
    NoMemory,
}

impl From<TokenError> for Fault {
    fn from(error: TokenError) -> Fault {
        match error {
            TokenError::BadToken(at) => Fault::Bad(at),
            TokenError::OutOfMemory => Fault::NoMemory,
        }
    }
}

impl From<ParseError> for Fault {
    fn from(error: ParseError) -> Fault {
        match error {
            ParseError::Unexpected(at) => Fault::Unexpected(at),
            ParseError::TooDeep(at) => Fault::Deep(at),
            ParseError::OutOfMemory => Fault::NoMemory,
        }
    }
}

/// The line of a fault.
pub fn fault_line(alloc: Global, fault: Fault) -> Result<String, AllocError> {
    let (word, at) = match fault {
        Fault::Bad(at) => ("BadToken", at),
        Fault::Unexpected(at) => ("Unexpected", at),
        Fault::Deep(at) => ("TooDeep", at),
        Fault::NoMemory => return Err(AllocError),
    };
    let (line, column) = (at.line, at.column);
    format!(in alloc; "{word} {line}:{column}\n")
}

/// The statements of a text.
pub fn code_of(alloc: Global, text: &str) -> Result<Code, Fault> {
    let list = tokens(alloc, text)?;
    Ok(parse_code(alloc, &list)?)
}

fn expr_of(alloc: Global, text: &str) -> Result<Expr, Fault> {
    let list = tokens(alloc, text)?;
    Ok(parse_expr(alloc, &list)?)
}

/// How many statements a text is, or its fault.
pub fn statements(alloc: Global, text: &str) -> Result<String, AllocError> {
    match code_of(alloc, text) {
        Ok(code) => format!(in alloc; "{} statements\n", code.len()),
        Err(fault) => fault_line(alloc, fault),
    }
}

/// `expression` of a text that is one, or its fault.
pub fn expression(alloc: Global, text: &str) -> Result<String, AllocError> {
    match expr_of(alloc, text) {
        Ok(_) => String::from_str(alloc, "expression\n"),
        Err(fault) => fault_line(alloc, fault),
    }
}

/// The trees of statements, as they are shown.
pub fn trees(alloc: Global, text: &str) -> Result<String, AllocError> {
    match code_of(alloc, text) {
        Ok(code) => format!(in alloc; "{code:?}\n"),
        Err(fault) => fault_line(alloc, fault),
    }
}

/// The tree of an expression, as it is shown.
pub fn tree(alloc: Global, text: &str) -> Result<String, AllocError> {
    match expr_of(alloc, text) {
        Ok(expr) => format!(in alloc; "{expr:?}\n"),
        Err(fault) => fault_line(alloc, fault),
    }
}

// A number, and 0 in place of anything else.
fn number_of(expr: &Expr) -> u64 {
    match expr {
        Expr::Number(number) => *number,
        _ => 0,
    }
}

// The value of one operator with numbers.
fn operator_value(expr: &Expr) -> Option<u64> {
    match expr {
        Expr::Unary(op, operand) => Some(unary_value(*op, number_of(operand))),
        Expr::Binary(op, left, right) => binary_value(*op, number_of(left), number_of(right)),
        _ => None,
    }
}

/// The value of one operator with numbers, where it has one.
pub fn value(alloc: Global, text: &str) -> Result<String, AllocError> {
    match expr_of(alloc, text) {
        Ok(expr) => format!(in alloc; "{:?}\n", operator_value(&expr)),
        Err(fault) => fault_line(alloc, fault),
    }
}

// The line of a token: kind, text, offset, line and column.
fn token_line(alloc: Global, token: &Token<'_>) -> Result<String, AllocError> {
    let (kind, start) = (token.kind, token.start);
    let (line, column) = (token.at.line, token.at.column);
    format!(in alloc; "{kind:?} {} {start} {line}:{column}\n", token.text)
}

fn lines_of(alloc: Global, list: &Tokens<'_>) -> Result<String, AllocError> {
    let mut lines = String::new(alloc);
    for token in list.as_slice() {
        lines.push_str(&token_line(alloc, token)?)?;
    }
    Ok(lines)
}

/// The tokens of a text, each on a line.
pub fn token_lines(alloc: Global, text: &str) -> Result<String, AllocError> {
    match tokens(alloc, text) {
        Ok(list) => lines_of(alloc, &list),
        Err(error) => fault_line(alloc, Fault::from(error)),
    }
}
