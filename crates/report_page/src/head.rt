/// What stands before the totals in a page.
pub(crate) const HEAD: &str = "\
<!DOCTYPE html>
<html lang=\"en\">
<head>
<meta charset=\"utf-8\">
<title>surveyor report</title>
<style>
body { font-family: sans-serif; margin: 1em 2em; color: #111; background: #fff; }
table { border-collapse: collapse; }
th, td { border: 1px solid #999; padding: 0 .6em; text-align: left; }
.source { background: #f6f6f6; padding: .5em; overflow-x: auto; font-family: monospace; }
.line { display: block; min-height: 1.2em; white-space: pre; }
.line b { display: inline-block; width: 4em; color: #666; font-weight: normal; user-select: none; }
.site { text-decoration: none; color: #000; padding: 0 .1em; border-radius: .2em; }
.site sup { font-size: .7em; font-weight: bold; }
.green { background: #cfeccf; }
.orange { background: #ffc966; outline: 1px solid #b36b00; }
.red { background: #ff9c9c; outline: 2px solid #a00; }
.unreachable { background: #d8d8d8; }
.reviewed { outline-style: dashed; }
.site:target { outline: 3px solid #00f; }
a.site { scroll-margin: 8em 2em; }
@media print { body { margin: 0; } .source { overflow: visible; } .line { white-space: pre-wrap; } .site { border: 1px solid #000; } }
</style>
</head>
<body>
<h1>surveyor report</h1>
<p>Each access is marked by a colour and its letter: <span class=\"site green\">G</span> green, in every run the access lies
inside its array; <span class=\"site orange\">O</span> orange, not decided; <span class=\"site red\">R</span> red, no run goes
on past it; <span class=\"site unreachable\">U</span> unreachable, no run reaches it. A star says that a reviewer noted a
remark. A link on an orange or red access leads to the next one; the keys n and p walk them.</p>
";

/// What ends a page: the keys that walk the orange and red sites.
pub(crate) const TAIL: &str = "\
<script>
document.addEventListener(\"keydown\", function (event) {
  var count = document.querySelectorAll(\"a.site\").length;
  var at = Number(location.hash.slice(2)) || 0;
  if (count === 0 || event.ctrlKey || event.altKey || event.metaKey) { return; }
  if (event.key === \"n\") { at = at % count + 1; } else if (event.key === \"p\") { at = at > 1 ? at - 1 : count; } else { return; }
  location.hash = \"a\" + at;
});
</script>
</body>
</html>
";
