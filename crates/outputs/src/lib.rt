// No code: the theorems that the lines of successive calls, joined, are the printers' whole output.
#![tactic(auto)]
